// The demands on oxygen that a reach has, each with its rate and its source: how it comes into the reach.
ghost use Rattle.std.specs.Prelude.{◌≡◌};
ghost use Rattle.river.specs.Source.{SourceInRange, nitrogenous_source, nitrogenous_rate, source_of, rate_of, source_mass};

use crate::card::{Card, Nitrification};

// BOD, and nitrogenous BOD.
#[derive(Clone, Copy)]
pub enum Demand {
    Bod,
    Nitrogenous,
}

// An inflow in litres a second, the demand in it in thousandths of mg/L, and a load in milligrams a second.
#[derive(Clone, Copy)]
pub struct Source {
    pub inflow: u32,
    pub concentration: u32,
    pub load: u32,
}

// The source of nitrogenous BOD; a reach without nitrification adds none.
fn nitrogenous_source(inflow: u32, nitrification: Option<Nitrification>) -> Source
    ensures { result ≡ nitrogenous_source inflow nitrification }
{
    let n = nitrification.unwrap_or_default();
    Source {
        inflow,
        concentration: n.concentration,
        load: n.load,
    }
}

// The rate of nitrogenous BOD, in thousandths a day.
fn nitrogenous_rate(nitrification: Option<Nitrification>) -> u32
    ensures { result ≡ nitrogenous_rate nitrification }
{
    nitrification.unwrap_or_default().rate
}

// The source of a demand of a reach.
pub fn source_of(demand: Demand, card: Card) -> Source
    ensures { result ≡ source_of demand card }
{
    match demand {
        Demand::Bod => Source {
            inflow: card.inflow,
            concentration: card.inflow_bod,
            load: card.load,
        },
        Demand::Nitrogenous => nitrogenous_source(card.inflow, card.optionals.nitrification),
    }
}

// The rate of a demand of a reach, in thousandths a day.
pub fn rate_of(demand: Demand, card: Card) -> u32
    ensures { result ≡ rate_of demand card }
{
    match demand {
        Demand::Bod => card.k1,
        Demand::Nitrogenous => nitrogenous_rate(card.optionals.nitrification),
    }
}

// The undecayed demand that a source brings.
pub fn source_mass(source: Source) -> u64
    requires { SourceInRange source }
    ensures { result ≡ source_mass source }
{
    u64::from(source.inflow) * u64::from(source.concentration) + 1_000 * u64::from(source.load)
}
