// The figures along a reach: BOD, nitrogenous BOD and oxygen at its foot, and its critical point, from one pass over the 1,025 instants.
ghost use Rattle.std.specs.Prelude.{◌≡◌, ◌+◌, ◌≤◌, ◌<◌, false};
ghost use Rattle.decay.specs.held.Factors.{AreShares};
ghost use Rattle.report.specs.held.Bed.{loss_limit, LossInRange};
ghost use Rattle.report.specs.Program.{foot};
ghost use Rattle.report.specs.held.Profile.{Begun, start_parts, oxygen_with_parts, oxygen_over, parts_at, Covers, CoversAt, WalkedTo, seen_at, Profiled};
ghost use Rattle.flows.specs.held.Stored.{Stores};

use crate::bed::Bed;
use crate::course::{Course, Start};
use decay::factors::{DemandFactors, FOOT, Factors};
use decay::{factors, fixed};

// Nitrogenous BOD is stepped in parts of a unit, so that no product is needed for its units.
pub const UNIT_PARTS: u64 = 16_384;

// The walk down a reach: the factors of BOD and the parts of nitrogenous BOD at the instant, and the first lowest stored oxygen so far with its
// instant.
#[derive(Clone, Copy)]
pub struct Walk {
    pub factors: Factors,
    pub nitrogenous: DemandFactors,
    pub instant: u64,
    pub lowest: u64,
}

// Foot BOD, foot nitrogenous BOD, stored foot oxygen and the critical point of a reach.
#[derive(Clone, Copy)]
pub struct Profile {
    pub foot_bod: u64,
    pub foot_nitrogenous: u64,
    pub foot_oxygen: u64,
    pub critical_instant: u64,
    pub critical_oxygen: u64,
}

// Stored oxygen where these factors of BOD and these parts of nitrogenous BOD hold and no bed takes any. A bed may take its most of it. Without BOTH
// only BOD takes any.
pub fn oxygen_with_both<const BOTH: bool>(start: Start, f: Factors, d: DemandFactors) -> u64
    requires in_range { AreShares f × (d.left + d.turned ≤ start_parts start) }
    requires covers { BOTH ≡ false → d.turned ≡ 0 }
    ensures stored { Stores result (oxygen_with_parts start f d) }
    ensures leaves { loss_limit ≤ result }
{
    let oxygen = start.oxygen_with(f);
    if BOTH {
        oxygen - d.turned / UNIT_PARTS
    } else {
        oxygen
    }
}

// Stored oxygen at instant m, where these factors of BOD and these parts of nitrogenous BOD hold. Without BED no bed takes any.
pub fn oxygen_at<const BED: bool, const BOTH: bool>(
    start: Start,
    bed: Bed,
    f: Factors,
    d: DemandFactors,
    m: u64,
) -> u64
    requires in_range { AreShares f × (d.left + d.turned ≤ start_parts start) × LossInRange f bed m }
    requires covers { CoversAt BED BOTH bed d }
    ensures { Stores result (oxygen_over start bed f d m) }
{
    let oxygen = oxygen_with_both::<BOTH>(start, f, d);
    if BED {
        oxygen - bed.loss_with(f, m)
    } else {
        oxygen
    }
}

// The walk at the head, which is instant 0: no bed has taken any oxygen yet, and all nitrogenous BOD is left.
pub fn begin(start: Start) -> Walk
    ensures { Begun start result }
{
    let f = factors::start();
    Walk {
        factors: f,
        nitrogenous: DemandFactors {
            left: UNIT_PARTS * start.nitrogenous,
            turned: 0,
        },
        instant: 0,
        lowest: start.oxygen_with(f),
    }
}

impl Walk {
    // The walk with instant m seen, where these factors, these parts and this stored oxygen hold.
    pub fn seen(self, f: Factors, d: DemandFactors, m: u64, oxygen: u64) -> Walk
        ensures { result ≡ seen_at self f d m oxygen }
    {
        if oxygen < self.lowest {
            Walk {
                factors: f,
                nitrogenous: d,
                instant: m,
                lowest: oxygen,
            }
        } else {
            Walk {
                factors: f,
                nitrogenous: d,
                ..self
            }
        }
    }
}

// The parts of nitrogenous BOD one step after instant m of a walk. Without BOTH they stay.
pub fn next_parts<const BOTH: bool>(course: Course, m: u64, walk: Walk) -> DemandFactors
    requires walked_to { WalkedTo course m walk }
    requires covers { BOTH ≡ false → course.nitrogenous.step.lost ≡ 0 }
    ensures { result ≡ parts_at course (m + 1) }
{
    if BOTH {
        factors::next_demand(course.nitrogenous, walk.nitrogenous)
    } else {
        walk.nitrogenous
    }
}

// The walk one step after instant m. Without BED there is no bed, and without BOTH only BOD takes oxygen beside one.
pub fn turn<const BED: bool, const BOTH: bool>(course: Course, m: u64, walk: Walk) -> Walk
    requires walked_to { (m < foot) × WalkedTo course m walk }
    requires covers { Covers BED BOTH course }
    ensures { WalkedTo course (m + 1) result }
{
    let f = factors::next(course.bod, walk.factors);
    let d = next_parts::<BOTH>(course, m, walk);
    let oxygen = oxygen_at::<BED, BOTH>(course.start, course.bed, f, d, m + 1);
    walk.seen(f, d, m + 1, oxygen)
}

// That walk at the foot, which is instant 1,024.
pub fn walk_down<const BED: bool, const BOTH: bool>(course: Course) -> Walk
    requires { Covers BED BOTH course }
    ensures { WalkedTo course foot result }
{
    let mut walk = begin(course.start);
    for m in 0..FOOT {
        walk = turn::<BED, BOTH>(course, m, walk);
    }
    walk
}

// The walk at the foot. Only a reach with a bed pays for one, and only a reach with nitrification for that.
pub fn walk_to_foot(course: Course) -> Walk
    ensures { WalkedTo course foot result }
{
    let nitrified = 0 < course.nitrogenous.step.lost;
    if course.bed.takes() {
        if nitrified {
            walk_down::<true, true>(course)
        } else {
            walk_down::<true, false>(course)
        }
    } else if nitrified {
        walk_down::<false, true>(course)
    } else {
        walk_down::<false, false>(course)
    }
}

// The profile of a reach.
pub fn profile_of(course: Course) -> Profile
    ensures { Profiled course result }
{
    let walk = walk_to_foot(course);
    let f = walk.factors;
    let d = walk.nitrogenous;
    Profile {
        foot_bod: fixed::product(f.left, course.start.bod),
        foot_nitrogenous: d.left / UNIT_PARTS,
        foot_oxygen: oxygen_at::<true, true>(course.start, course.bed, f, d, FOOT),
        critical_instant: walk.instant,
        critical_oxygen: walk.lowest,
    }
}
