// The tests that reading and writing share: ranges, outlets and the reach count; and that of check 15.
ghost use Rattle.std.specs.Prelude.{◌≡◌};
ghost use Rattle.river.specs.Card.{in_range, rates_in_range, outlet_ok, count_ok};
ghost use Rattle.river.specs.Fields.{within};
ghost use Rattle.river.specs.Records.{dam_record, nitrification_record, rate_factor, factors_record};
ghost use Rattle.river.specs.held.Layouts.{amount_record};

use crate::card::{Card, Dam, FLOW_MOST, Layout, Nitrification, REACHES, RateFactors};
use crate::source::{Demand, rate_of};

// The largest values of the fields of `RE`, `DM` and `NT` records; that of a rate is the limit of check 15, too.
const TEMPERATURE_MOST: u8 = 35;

const RATE_MOST: u32 = 20_000;

const VOLUME_MOST: u32 = 1_000_000_000;

const BOD_MOST: u32 = 1_000_000;

const OXYGEN_MOST: u16 = 20_000;

const SHARE_MOST: u16 = 1_000;

// The range of a rate factor.
const FACTOR_LEAST: u16 = 1_000;

const FACTOR_MOST: u16 = 1_100;

// Whether the fields of a card's `RE` record are in range.
#[tactic(auto, using(crate::proofs::Tests::ranges), unfolding(crate::specs::Card::in_range))]
pub fn in_range(c: Card) -> bool
    ensures { result ≡ in_range c }
{
    c.temperature <= TEMPERATURE_MOST
        && c.k1 <= RATE_MOST
        && c.k2 <= RATE_MOST
        && c.volume <= VOLUME_MOST
        && c.inflow <= FLOW_MOST
        && c.inflow_bod <= BOD_MOST
        && c.inflow_oxygen <= OXYGEN_MOST
}

// Whether the rates of a card are in range.
#[tactic(auto, using(crate::proofs::Tests::ranges), unfolding(crate::specs::Card::rates_in_range))]
pub fn rates_in_range(c: Card) -> bool
    ensures { result ≡ rates_in_range c }
{
    c.k1 <= RATE_MOST && c.k2 <= RATE_MOST && rate_of(Demand::Nitrogenous, c) <= RATE_MOST
}

// Whether the fields of a dam's `DM` record are in range.
#[tactic(auto, using(crate::proofs::Tests::ranges), unfolding(crate::specs::Fields::within, crate::specs::Fields::all_within))]
pub fn dam_in_range(dam: Option<Dam>) -> bool
    ensures { result ≡ dam_record.in_range dam }
{
    dam.is_none_or(|d| d.share <= SHARE_MOST && d.generating <= FLOW_MOST)
}

// Whether an amount is in the range of its layout.
#[tactic(auto, using(crate::proofs::Tests::ranges), unfolding(crate::specs::Fields::within, crate::specs::Fields::all_within))]
pub(crate) fn amount_in_range(layout: Layout, amount: Option<u32>) -> bool
    ensures { result ≡ (amount_record layout).in_range amount }
{
    amount.is_none_or(|n| (layout.least..=layout.most).contains(&n))
}

// Whether the fields of a nitrification's `NT` record are in range; any load is.
#[tactic(auto, using(crate::proofs::Tests::ranges), unfolding(crate::specs::Fields::within, crate::specs::Fields::all_within))]
pub(crate) fn nitrification_in_range(nitrification: Option<Nitrification>) -> bool
    ensures { result ≡ nitrification_record.in_range nitrification }
{
    nitrification.is_none_or(|n| n.rate <= RATE_MOST && n.concentration <= BOD_MOST)
}

// Whether a rate factor is in range.
#[tactic(auto, using(crate::proofs::Tests::ranges), unfolding(crate::specs::Fields::within))]
fn factor_in_range(factor: u16) -> bool
    ensures { result ≡ within rate_factor factor }
{
    (FACTOR_LEAST..=FACTOR_MOST).contains(&factor)
}

// Whether the fields of the `TH` record of rate factors are in range.
#[tactic(auto, using(crate::proofs::Tests::ranges), unfolding(crate::specs::Fields::all_within))]
pub(crate) fn factors_in_range(factors: Option<RateFactors>) -> bool
    ensures { result ≡ factors_record.in_range factors }
{
    factors.is_none_or(|f| factor_in_range(f.decay) && factor_in_range(f.aeration))
}

// Whether reach i of n may have an outlet. Count and reach come side by side here and in the functions that read or check one card: the reach is
// another at each call, so a struct of the two would be made anew each time.
#[tactic(auto, using(crate::proofs::Tests::ranges), unfolding(crate::specs::Card::outlet_ok))]
pub fn outlet_ok(n: u8, i: u8, outlet: u8) -> bool
    ensures { result ≡ outlet_ok n i outlet }
{
    if i == n {
        outlet == 0
    } else {
        i < outlet && outlet <= n
    }
}

// Whether a river may have so many reaches.
#[tactic(auto, using(crate::proofs::Tests::ranges), unfolding(crate::specs::Card::count_ok))]
pub fn count_ok(n: usize) -> bool
    ensures { result ≡ count_ok n }
{
    (1..=REACHES).contains(&n)
}
