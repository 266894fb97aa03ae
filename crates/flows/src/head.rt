// Head of a reach: saturation, upstream means, the dam and mixing.
ghost use Rattle.std.specs.Prelude.{◌≡◌, SomeIff, true, ◌-◌, ◌*◌, ◌/◌, ◌<◌, ◌≤◌, pos, ◌+ℤ◌, ◌-ℤ◌, ◌*ℤ◌};
ghost use Rattle.flows.specs.Saturation as Sat;
ghost use Rattle.flows.specs.Saturation.{saturation_of, pressure_of, ConditionsInRange, SaturationInRange};
ghost use Rattle.flows.specs.Head.{floor, below_dam, head_demand, head_oxygen};
ghost use Rattle.flows.specs.held.Stored.{oxygen_of, oxygen_sum_of};
ghost use Rattle.flows.specs.held.HeadTable.{PartOf, HeadReady, DemandReady, OxygenReady, nothing_brought, brought_by, BroughtWithFits, brought_with, brought_to, BroughtFits, HeadInput, HeadOf};

use crate::flow::ReachFlows;
use river::card::{Card, REACHES, amount_or};
use river::source::{Demand, Source, source_of};

// The number that stores zero oxygen: oxygen is stored as its units plus 2^31. It stays a plain number: means, mixing, dams and walks compute on
// what is stored and add it up with weights, so that a type of its own would be taken apart in each of them; only what is told is made `signed`.
pub const STORED_ZERO: u32 = 2_147_483_648;

// The same as a wide number, which this crate, report and text add to. A constant calls no `From`.
pub const STORED_ZERO_WIDE: u64 = STORED_ZERO as u64;

// Stored oxygen in signed units.
pub fn signed(stored: u32) -> i32
    ensures { result ≡ oxygen_of stored }
{
    (i64::from(stored) - i64::from(STORED_ZERO)) as i32
}

// What a foot brings, or the feeders of a reach bring together: flow times each demand and times stored oxygen, and whether oxygen is used up
// there or above.
#[derive(Clone, Copy, Default)]
pub struct Brought {
    pub bod: u64,
    pub nitrogenous: u64,
    pub oxygen: u64,
    pub used: bool,
}

// Each demand and stored oxygen at the head of a reach.
#[derive(Clone, Copy)]
pub struct Head {
    pub bod: u32,
    pub nitrogenous: u32,
    pub oxygen: u32,
}

// The standard pressure in mm of mercury.
const STANDARD_PRESSURE: u32 = 760;

// What thousandths of a unit times mm of mercury are divided by to give units.
const SATURATION_DIVISOR: u64 = 1_000 * (STANDARD_PRESSURE as u64);

// Saturation in units at a temperature in degrees C and a pressure in mm of mercury, rounded once.
#[tactic(auto, unfolding(crate::specs::Saturation::saturation, crate::specs::Saturation::saturation_thousandths))]
fn saturation(temperature: u8, pressure: u32) -> u32
    requires { ConditionsInRange temperature pressure }
    ensures { result ≡ Sat.saturation temperature pressure }
{
    let t = u64::from(temperature);
    let square = t * t;
    let thousandths = 14_652_000_000 + 7_991_000 * square
        - (410_220_000 * t + 77_774 * (square * t));
    (thousandths * u64::from(pressure) / SATURATION_DIVISOR) as u32
}

// Pressure of a reach in mm of mercury.
fn pressure_of(card: Card) -> u32
    ensures { result ≡ pressure_of card }
{
    amount_or(STANDARD_PRESSURE, card.optionals.pressure)
}

// Saturation of a reach in units. The report has the card of an accepted river, whose temperature and pressure are in range.
#[tactic(auto, unfolding(crate::specs::Saturation::saturation_of))]
pub fn saturation_of(card: Card) -> u32
    requires { SaturationInRange card }
    ensures { result ≡ saturation_of card }
{
    saturation(card.temperature, pressure_of(card))
}

// A long division goes on by 16 bits.
const CHUNK: u64 = 65_536;

// The floor of a * b / d, by long division in two chunks of 16 bits of a: a quotient of 128 bits would call `__udivti3` of the C compiler's
// library, which no proof covers.
#[tactic(auto, using(crate::proofs::head::Bounds::share_small, crate::proofs::head::Bounds::long_division))]
fn share_of(a: u32, b: u64, d: u64) -> u32
    requires { PartOf b d }
    ensures { result ≡ a * b / d }
{
    let a = u64::from(a);
    let first = a / CHUNK * b;
    let rest = first % d * CHUNK + a % CHUNK * b;
    (first / d * CHUNK + rest / d) as u32
}

// Stored oxygen after `weight` parts in `whole` of the water have come to saturation.
#[tactic(auto, using(crate::proofs::head::Stored::rise_stored, crate::proofs::head::Stored::fall_stored))]
fn aerate(oxygen: u32, saturated: u32, weight: u64, whole: u64) -> u32
    requires { PartOf weight whole }
    ensures { oxygen_of result ≡ oxygen_of oxygen +ℤ floor ((oxygen_of saturated -ℤ oxygen_of oxygen) *ℤ pos weight) whole }
{
    if oxygen <= saturated {
        oxygen + share_of(saturated - oxygen, weight, whole)
    } else {
        saturated + share_of(oxygen - saturated, whole - weight, whole)
    }
}

// Stored oxygen below the dam of a reach that has feeders.
#[tactic(auto, using(crate::proofs::head::Bounds::saturation_of_small, crate::proofs::head::Stored::saturated_stored), unfolding(crate::specs::Head::below_dam, crate::specs::Head::aerated))]
fn below_dam(card: Card, qu: u64, oxygen: u32) -> u32
    requires { HeadReady card true qu }
    ensures { oxygen_of result ≡ below_dam card true qu (oxygen_of oxygen) }
{
    match card.dam {
        None => oxygen,
        Some(dam) => aerate(
            oxygen,
            STORED_ZERO + saturation_of(card),
            u64::from(dam.share) * (qu - u64::from(dam.generating)),
            1_000 * qu,
        ),
    }
}

// The mean over the feeders of a foot value, from the sum of flow times it. None where there are no feeders.
fn upstream_mean(fed: bool, qu: u64, sum: u64) -> Option<u64>
    requires { fed ≡ true → 0 < qu }
    ensures { SomeIff result (fed ≡ true) (sum / qu) }
{
    fed.then(|| sum / qu)
}

// Stored head oxygen, from the sum of flow times stored foot oxygen.
fn head_oxygen(card: Card, fed: bool, qu: u64, sum: u64) -> u32
    requires { OxygenReady card fed qu sum }
    ensures { oxygen_of result ≡ head_oxygen card fed qu (oxygen_sum_of qu sum) }
{
    let upstream = match upstream_mean(fed, qu, sum) {
        None => STORED_ZERO,
        Some(mean) => below_dam(card, qu, mean as u32),
    };
    let inflow = u64::from(card.inflow);
    let own = STORED_ZERO_WIDE + 1_000 * u64::from(card.inflow_oxygen);
    ((qu * u64::from(upstream) + inflow * own) / (qu + inflow)) as u32
}

// A demand at a head, from its source and the sum of flow times foot value.
#[tactic(auto, using(crate::proofs::head::Bounds::mean_demand, crate::proofs::head::Bounds::demand_small), unfolding(crate::specs::Head::head_demand))]
fn head_demand(source: Source, fed: bool, qu: u64, sum: u64) -> u32
    requires { DemandReady source fed qu sum }
    ensures { result ≡ head_demand source fed qu sum }
{
    let upstream = upstream_mean(fed, qu, sum).unwrap_or(0);
    let inflow = u64::from(source.inflow);
    ((qu * upstream
        + 1_000 * inflow * u64::from(source.concentration)
        + 1_000_000 * u64::from(source.load))
        / (qu + inflow)) as u32
}

// What the reaches of a river bring, each at its place, where none brings anything yet.
pub fn nothing_brought() -> [Brought; REACHES]
    ensures { result ≡ nothing_brought }
{
    [Brought::default(); REACHES]
}

// What a foot with these values brings.
pub fn brought_by(flow: u32, bod: u32, nitrogenous: u32, oxygen: u32, used: bool) -> Brought
    ensures { result ≡ brought_by flow bod nitrogenous oxygen used }
{
    let flow = u64::from(flow);
    Brought {
        bod: flow * u64::from(bod),
        nitrogenous: flow * u64::from(nitrogenous),
        oxygen: flow * u64::from(oxygen),
        used,
    }
}

// What is brought with what one more feeder brings.
fn brought_with(brought: Brought, more: Brought) -> Brought
    requires { BroughtWithFits brought more }
    ensures { result ≡ brought_with brought more }
{
    Brought {
        bod: brought.bod + more.bod,
        nitrogenous: brought.nitrogenous + more.nitrogenous,
        oxygen: brought.oxygen + more.oxygen,
        used: more.used || brought.used,
    }
}

// What the feeders of a reach bring, by the reaches before it and what each of these brings: two slices, since all flows are there from `accept`,
// and what a reach brings comes only with its foot.
#[tactic(auto, unfolding(crate::specs::held::FlowTable::table_sum, crate::specs::held::FlowTable::table_any))]
pub fn brought_to(before: &[ReachFlows], by_reach: &[Brought], reach: u8) -> Brought
    requires { BroughtFits before.now by_reach.now reach }
    ensures { result ≡ brought_to before.now by_reach.now reach }
{
    let mut brought = Brought::default();
    for (feeder, brings) in before.iter().zip(by_reach) {
        if feeder.outlet == reach {
            brought = brought_with(brought, *brings);
        }
    }
    brought
}

// The head of a reach, from whether it has feeders, Qu, and what the feeders bring. The report has these of an accepted river's reach. The flag
// stays beside Qu, though such a reach has feeders exactly where Qu is above 0: `HeadOf` promises a head for either flag at any Qu that `HeadInput`
// allows.
pub fn head_of(card: Card, fed: bool, qu: u64, brought: Brought) -> Head
    requires { HeadInput card fed qu brought }
    ensures { HeadOf card fed qu brought result }
{
    Head {
        bod: head_demand(source_of(Demand::Bod, card), fed, qu, brought.bod),
        nitrogenous: head_demand(
            source_of(Demand::Nitrogenous, card),
            fed,
            qu,
            brought.nitrogenous,
        ),
        oxygen: head_oxygen(card, fed, qu, brought.oxygen),
    }
}
