// Flow, undecayed BOD and depth of each reach, and the flow check.
ghost use Rattle.std.specs.Prelude.{◌≡◌, ◌*◌, ◌<◌, ◌≤◌, min, max, leb, ltb};
ghost use Rattle.river.specs.Card.{Regular, card_list};
ghost use Rattle.river.specs.Source.{SourcesInRange};
ghost use Rattle.river.specs.Refusal.{need};
ghost use Rattle.flows.specs.Flow.{flow_limit, take_of, sludge_of, own_mass, remaining_mass, dam_fits, rates_fit, bed_fits, flow_rules, checks_of};
ghost use Rattle.flows.specs.held.FlowTable.{Decides, FeederFits, with_feeder, SumsFit, upstream_of, no_flows, Underway, CheckAt, NextBy, FlowChecked};

use river::card::{Card, Cards, Dam, REACHES, amount_or};
use river::range::rates_in_range;
use river::refusal::{Refusal, Rule};
use river::source::{Demand, rate_of, source_mass, source_of};

// The most litres a second that a reach may carry.
const FLOW_LIMIT: u64 = 100_000_000;

// The most undecayed BOD to a litre a second.
const MASS_LIMIT: u64 = 1_000_000;

// The most rate times volume to a litre a second.
const RATE_LIMIT: u32 = 345_600;

// The most sludge demand times volume to a litre a second.
const BED_LIMIT: u32 = 432_000;

// A reach that passed: its outlet, Qu, flow and undecayed BOD after the take, and depth.
#[derive(Clone, Copy, Default)]
pub struct ReachFlows {
    pub outlet: u8,
    pub upstream: u32,
    pub flow: u32,
    pub mass: u64,
    pub depth: u8,
}

// The reaches of a river that passed, each at its place.
pub type FlowTable = [ReachFlows; REACHES];

// What flows into a reach: the sums of its feeders' flow and undecayed BOD, and the depth of the deepest.
#[derive(Clone, Copy, Default)]
pub struct Upstream {
    pub flow: u64,
    pub mass: u64,
    pub deepest: u8,
}

// What flows in with one more feeder.
fn with_feeder(up: Upstream, feeder: ReachFlows) -> Upstream
    requires { FeederFits up feeder }
    ensures { result ≡ with_feeder up feeder }
{
    Upstream {
        flow: up.flow + u64::from(feeder.flow),
        mass: up.mass + feeder.mass,
        deepest: up.deepest.max(feeder.depth),
    }
}

// What flows into a reach, by the reaches before it. `brought_to` scans them likewise, beside a second table and with other sums: what the two share is
// the test of an outlet.
fn upstream_of(before: &[ReachFlows], reach: u8) -> Upstream
    requires { SumsFit before.now reach }
    ensures { result ≡ upstream_of before.now reach }
{
    let mut up = Upstream::default();
    for feeder in before {
        if feeder.outlet == reach {
            up = with_feeder(up, *feeder);
        }
    }
    up
}

// Whether a dam passes check 9.
#[tactic(auto, unfolding(crate::specs::Flow::dam_fits))]
fn dam_fits(dam: Option<Dam>, up: Upstream) -> bool
    ensures { result ≡ dam_fits dam (ltb 0 up.deepest) up.flow }
{
    match dam {
        None => true,
        Some(d) => 0 < up.deepest && u64::from(d.generating) <= up.flow,
    }
}

// Whether a number times volume is at most a limit times flow, as checks 11 and 14 ask.
fn fits(number: u32, volume: u32, limit: u32, flow: u32) -> bool
    ensures { result ≡ leb (number * volume) (limit * flow) }
{
    u64::from(number) * u64::from(volume) <= u64::from(limit) * u64::from(flow)
}

// Whether each rate of a reach passes check 11.
fn rates_fit(card: Card, flow: u32) -> bool
    ensures { result ≡ rates_fit card flow }
{
    fits(card.k1, card.volume, RATE_LIMIT, flow)
        && fits(card.k2, card.volume, RATE_LIMIT, flow)
        && fits(
            rate_of(Demand::Nitrogenous, card),
            card.volume,
            RATE_LIMIT,
            flow,
        )
}

// The demand of a reach's sludge bed.
pub fn sludge_of(card: Card) -> u32
    ensures { result ≡ sludge_of card }
{
    amount_or(0, card.optionals.sludge)
}

// Whether a sludge bed passes check 14.
fn bed_fits(card: Card, flow: u32) -> bool
    ensures { result ≡ bed_fits card flow }
{
    fits(sludge_of(card), card.volume, BED_LIMIT, flow)
}

// The take of a reach.
fn take_of(card: Card) -> u64
    ensures { result ≡ take_of card }
{
    u64::from(amount_or(0, card.optionals.take))
}

// Goes on where the test holds, and is refused by the rule at the reach where it fails.
#[tactic(auto, unfolding(river::specs::Refusal::need, river::specs::Refusal::after))]
fn need(test: bool, rule: Rule, reach: u8) -> Result<(), Refusal>
    ensures { Decides result (need test rule reach) }
{
    if test { Ok(()) } else { Err(rule.at(reach)) }
}

// Checks 7, 8 and 9.
fn flow_rules(dam: Option<Dam>, up: Upstream, flow: u64, reach: u8) -> Result<(), Refusal>
    ensures { Decides result (flow_rules dam (ltb 0 up.deepest) up.flow flow reach) }
{
    need(0 < flow, Rule::NoFlow, reach)?;
    need(flow <= FLOW_LIMIT, Rule::FlowLimit, reach)?;
    need(dam_fits(dam, up), Rule::DamFlow, reach)
}

// The checks of a reach in order, group by group, by its flow and undecayed BOD before the take: 7 to 9, 10, 13, 15, 11 and 14.
fn check(card: Card, up: Upstream, flow: u64, mass: u64, reach: u8) -> Result<(), Refusal>
    ensures { Decides result (checks_of card (ltb 0 up.deepest) up.flow flow mass reach) }
{
    flow_rules(card.dam, up, flow, reach)?;
    need(mass <= MASS_LIMIT * flow, Rule::BodLimit, reach)?;
    let take = take_of(card);
    need(take < flow, Rule::TakeLimit, reach)?;
    need(rates_in_range(card), Rule::RateRange, reach)?;
    let remaining = (flow - take) as u32;
    need(rates_fit(card, remaining), Rule::RateLimit, reach)?;
    need(bed_fits(card, remaining), Rule::BedLimit, reach)
}

// The undecayed BOD, of both demands, that a reach itself takes in.
fn own_mass(card: Card) -> u64
    requires { SourcesInRange card }
    ensures { result ≡ own_mass card }
{
    source_mass(source_of(Demand::Bod, card)) + source_mass(source_of(Demand::Nitrogenous, card))
}

// The undecayed BOD after a take, by flow and undecayed BOD before it.
fn remaining_mass(take: u64, flow: u64, mass: u64) -> u64
    requires { (take < flow) × (flow ≤ flow_limit) }
    ensures { result ≡ remaining_mass take flow mass }
{
    let remaining = mass - take * (mass / flow);
    remaining.min(MASS_LIMIT * (flow - take))
}

// The check of reach i + 1, which has this card, by what flows into it. What passes is told as it is after its take.
fn check_next(card: Card, up: Upstream, i: usize) -> Result<ReachFlows, Refusal>
    requires { CheckAt card up i }
    ensures { NextBy card up i result }
{
    let flow = up.flow + u64::from(card.inflow);
    let mass = up.mass + own_mass(card);
    check(card, up, flow, mass, (i + 1) as u8)?;
    let take = take_of(card);
    Ok(ReachFlows {
        outlet: card.outlet,
        upstream: up.flow as u32,
        flow: (flow - take) as u32,
        mass: remaining_mass(take, flow, mass),
        depth: up.deepest + 1,
    })
}

// How many reaches a river has whose cards have this count.
pub fn reach_count(count: u8) -> usize
    ensures { result ≡ min count 128 }
{
    usize::from(count).min(REACHES)
}

// The table of no reach.
pub fn no_flows() -> FlowTable
    ensures { result ≡ no_flows }
{
    [ReachFlows::default(); REACHES]
}

// The flow check of a river whose first i reaches passed and stand in the table, from the next reach on. A caller has what this asks for, at
// every reach of an accepted river, from `accept`. Table and number stay apart, since `Underway` speaks of both.
pub fn check_from(cards: Cards, flows: FlowTable, i: usize) -> Result<FlowTable, Refusal>
    requires { Underway (card_list cards) i flows }
    ensures { FlowChecked (card_list cards) result }
{
    let mut flows = flows;
    for j in i..reach_count(cards.count) {
        let up = upstream_of(&flows[..j], (j + 1) as u8);
        flows[j] = check_next(cards.at[j], up, j)?;
    }
    Ok(flows)
}

// The flow check of a river, by its effective cards. `accept` has regular cards from its reading and their correction.
pub fn flow_check(cards: Cards) -> Result<FlowTable, Refusal>
    requires { Regular (card_list cards) }
    ensures { FlowChecked (card_list cards) result }
{
    check_from(cards, no_flows(), 0)
}
