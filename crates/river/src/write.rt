// The check of a card that is to be written.
ghost use Rattle.std.specs.Prelude.{◌≡◌};
ghost use Rattle.river.specs.Write.{check_card};

use crate::card::Card;
use crate::put::optionals_in_range;
use crate::range::{in_range, outlet_ok};
use crate::refusal::{Refusal, Rule};

// The card of reach i of n: refusals 4 and 5, then 4 for the records that follow its `RE` record.
#[tactic(auto, unfolding(crate::specs::Write::check_card, crate::specs::Refusal::need))]
pub fn check_card(c: Card, n: u8, i: u8) -> Result<(), Refusal>
    ensures { result ≡ check_card n i c }
{
    if !in_range(c) {
        return Err(Rule::FieldRange.at(i));
    }
    if !outlet_ok(n, i, c.outlet) {
        return Err(Rule::WrongOutlet.at(i));
    }
    if !optionals_in_range(c) {
        return Err(Rule::FieldRange.at(i));
    }
    Ok(())
}
