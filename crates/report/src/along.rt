// A reach along its way: its demands and oxygen at the foot, its mean oxygen, and whether oxygen is used up there.
ghost use Rattle.std.specs.Prelude.{◌≡◌, ◌≤◌};
ghost use Rattle.decay.specs.Fixed.{one};
ghost use Rattle.decay.specs.held.Step.{step_of};
ghost use Rattle.report.specs.Status.{is_used};
ghost use Rattle.report.specs.held.Along.{demands_along, AlongReady, AlongWith, AlongReach, AlongHead, TellsNeverBelow};
ghost use Rattle.report.specs.held.Reaches.{figures_of_reach};

use crate::course::Course;
use crate::profile::{UNIT_PARTS, oxygen_at};
use crate::reach::Reach;
use crate::{lines, status};
use decay::factors::{DemandFactors, FOOT, STEPS};
use decay::rates::Rates;
use decay::step::Pace;
use decay::{factors, fixed, mean as means_of, step};
use flows::head;
use flows::head::{Head, STORED_ZERO_WIDE};
use river::card::Card;
use river::source::Demand;

// The instant half way down a reach.
const MIDDLE: u64 = STEPS / 2;

// A demand in parts of a unit, at the foot of a reach and on average along it.
#[derive(Clone, Copy)]
pub struct DemandAlong {
    pub foot: DemandFactors,
    pub mean: DemandFactors,
}

// A reach along its way: its demands and stored oxygen at the foot, its stored mean oxygen, and what its bed has taken at the foot.
#[derive(Clone, Copy)]
pub struct ReachAlong {
    pub foot_bod: u32,
    pub foot_nitrogenous: u32,
    pub foot_oxygen: u32,
    pub mean: u32,
    pub loss: u64,
}

// A demand along a reach, at its pace, that starts with so many parts. At the rate 0 all of it stays.
pub fn demand_along(rates: Rates, pace: Pace, start: u64) -> DemandAlong
    requires { (pace.step ≡ step_of rates.k1 rates.k2 rates.volume rates.flow) × (start ≤ one) }
    ensures { result ≡ demands_along rates.k1 rates.k2 rates.volume rates.flow start }
{
    let whole = DemandFactors {
        left: start,
        turned: 0,
    };
    if rates.k1 == 0 {
        return DemandAlong {
            foot: whole,
            mean: whole,
        };
    }
    let sums = means_of::sums_of(pace, whole);
    DemandAlong {
        foot: sums.reached,
        mean: means_of::mean(step::mean_step_of(rates), sums),
    }
}

// A reach along its way, by its course, the mean pace of its BOD and its nitrogenous BOD.
pub fn along_with(course: Course, mean_pace: Pace, demand: DemandAlong) -> ReachAlong
    requires { AlongReady course mean_pace.step demand }
    ensures { AlongWith course mean_pace.step demand result }
{
    let Course { start, bed, .. } = course;
    let sums = means_of::sums_of(course.bod, factors::start());
    let f = sums.reached;
    let mean = means_of::mean(mean_pace, sums);
    let d = demand.foot;
    let foot_oxygen = oxygen_at::<true, true>(start, bed, f, d, FOOT);
    let mean_oxygen = oxygen_at::<true, true>(start, bed, mean, demand.mean, MIDDLE);
    ReachAlong {
        foot_bod: fixed::product(f.left, start.bod) as u32,
        foot_nitrogenous: (d.left / UNIT_PARTS) as u32,
        foot_oxygen: foot_oxygen as u32,
        mean: mean_oxygen as u32,
        loss: bed.loss_with(f, FOOT),
    }
}

// A reach along its way.
pub fn along_of(reach: Reach) -> ReachAlong
    ensures { AlongReach reach result }
{
    let course = lines::course_of(reach);
    let mean_pace = step::mean_step_of(lines::rates_of(Demand::Bod, reach));
    let demand = demand_along(
        lines::rates_of(Demand::Nitrogenous, reach),
        course.nitrogenous,
        UNIT_PARTS * u64::from(reach.head.nitrogenous),
    );
    along_with(course, mean_pace, demand)
}

// Whether oxygen is surely nowhere below zero along a reach, for whatever flow, which is why card and head come apart from their `Reach`: head
// oxygen and saturation are each at least what its demands lose on the way and what its bed takes, together.
pub fn never_below_zero(card: Card, head: Head, p: ReachAlong) -> bool
    requires { AlongHead card head p }
    ensures { TellsNeverBelow card head p result }
{
    let lost = head.bod - p.foot_bod + (head.nitrogenous - p.foot_nitrogenous);
    let taken = u64::from(lost) + p.loss;
    taken <= u64::from(head::saturation_of(card))
        && STORED_ZERO_WIDE + taken <= u64::from(head.oxygen)
}

// Whether the status of a reach is 1 or 2. The lowest oxygen is looked for only where it may lie below zero.
pub fn is_used_up(reach: Reach, p: ReachAlong) -> bool
    requires { AlongReach reach p }
    ensures { result ≡ is_used (figures_of_reach reach).status }
{
    if reach.used {
        return true;
    }
    if never_below_zero(reach.card, reach.head, p) {
        return false;
    }
    status::is_used(lines::line_of(reach).status)
}
