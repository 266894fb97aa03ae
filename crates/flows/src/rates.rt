// Rates in force: those of the cards, which a river with rate factors gives for 20 degrees, corrected to the temperature of each reach.
ghost use Rattle.std.specs.Prelude.{◌≡◌, ◌≤◌, Some};
ghost use Rattle.river.specs.Card.{card_list};
ghost use Rattle.river.specs.River.{LawfulRiver, river_of};
ghost use Rattle.river.specs.Fields.{Within};
ghost use Rattle.river.specs.Records.{rate_factor};
ghost use Rattle.flows.specs.Rates.{scaled, corrected_rate, card_in_force, in_force, ScaleFits, Correctable, CorrectableCard};

use river::card::{Card, Cards, Nitrification, RateFactors, with_nitrification};

// The temperature that rates are given for, in degrees C.
const STANDARD_TEMPERATURE: u8 = 20;

// A rate is corrected in millionths.
const MILLION: u64 = 1_000_000;

// A factor is in thousandths.
const THOUSAND: u64 = 1_000;

// A rate, in millionths, that each of some degrees multiplies by a ratio, rounded each time.
fn scaled(numerator: u64, denominator: u64, degrees: u8, rate: u64) -> u64
    requires { ScaleFits numerator denominator degrees rate }
    ensures { result ≡ scaled numerator denominator degrees rate }
{
    let mut rate = rate;
    for _ in 0..degrees {
        rate = rate * numerator / denominator;
    }
    rate
}

// A rate at a temperature, by the factor of a degree: one below 20 divides it by the factor, and one above multiplies it.
fn corrected_rate(factor: u16, temperature: u8, rate: u32) -> u32
    requires { Within rate_factor factor × Correctable temperature rate }
    ensures { result ≡ corrected_rate factor temperature rate }
{
    let factor = u64::from(factor);
    let below = STANDARD_TEMPERATURE.saturating_sub(temperature);
    let above = temperature.saturating_sub(STANDARD_TEMPERATURE);
    let cold = scaled(THOUSAND, factor, below, u64::from(rate) * MILLION);
    (scaled(factor, THOUSAND, above, cold) / MILLION) as u32
}

// A card with its rates corrected.
#[tactic(auto, unfolding(crate::specs::Rates::decay_in_force, crate::specs::Rates::aeration_in_force))]
fn corrected(factors: RateFactors, card: Card) -> Card
    requires { Within rate_factor factors.decay × Within rate_factor factors.aeration × CorrectableCard card }
    ensures { result ≡ card_in_force (Some factors) card }
{
    let nitrification = card.optionals.nitrification.map(|n| Nitrification {
        rate: corrected_rate(factors.decay, card.temperature, n.rate),
        ..n
    });
    Card {
        k1: corrected_rate(factors.decay, card.temperature, card.k1),
        k2: corrected_rate(factors.aeration, card.temperature, card.k2),
        optionals: with_nitrification(nitrification, card.optionals),
        ..card
    }
}

// The effective cards of a river, with the rates in force, by its cards as given: corrected once a reach, and only where the river has factors.
pub fn in_force(factors: Option<RateFactors>, given: Cards) -> Cards
    requires { LawfulRiver (river_of factors (card_list given)) × (given.count ≤ 128) }
    ensures { card_list result ≡ in_force (river_of factors (card_list given)) }
{
    let Some(per_degree) = factors else {
        return given;
    };
    let mut at = given.at;
    for card in &mut at[..usize::from(given.count)] {
        *card = corrected(per_degree, *card);
    }
    Cards { at, ..given }
}
