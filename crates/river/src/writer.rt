// The writer: it gets the rate factors and is lent the cards, one for each reach. It goes through the cards once to check them and once to put
// their file, and hands each by value to the functions that check and put one. Factors and cards come side by side: `write` and
// `written_back` are lent cards of any count, which a `Reading` cannot have, and a struct of the two would be made for one call.
ghost use Rattle.std.specs.Prelude.{◌≡◌, ◌≤◌, length};
ghost use Rattle.river.specs.Write.{Writes, encode};
ghost use Rattle.river.specs.held.Writer.{checked_length, file_over};
ghost use Rattle.river.specs.Card.{card_list};
ghost use Rattle.river.specs.River.{river_of};

use crate::bytes::Cursor;
use crate::card::{Card, Cards, HEADER_BYTES, RateFactors, factors_size};
use crate::put::{put_card, put_opening, size_of};
use crate::range::{count_ok, factors_in_range};
use crate::refusal::{Refusal, Rule};
use crate::write::check_card;

// The factors and the lent cards are checked, card after card: the first refusal, or the length of their file.
fn check_all(factors: Option<RateFactors>, cards: &[Card]) -> Result<usize, Refusal>
    ensures { result ≡ checked_length (river_of factors cards.now) }
{
    if !count_ok(cards.len()) {
        return Err(Rule::ReachCount.at(0));
    }
    if !factors_in_range(factors) {
        return Err(Rule::FieldRange.at(0));
    }
    let mut length = HEADER_BYTES + factors_size(factors);
    for (i, card) in cards.iter().enumerate() {
        // At most 128 cards are left here, so that count and reach fit a byte.
        check_card(*card, cards.len() as u8, (i + 1) as u8)?;
        length += size_of(*card);
    }
    Ok(length)
}

// The file of the factors and the lent cards is put at the start of a buffer that has room for it.
fn put_all(factors: Option<RateFactors>, cards: &[Card], out: &mut [u8])
    requires few { length cards.now ≤ 128 }
    requires room { length (encode (river_of factors cards.now)) ≤ length out.old }
    ensures { out.new ≡ file_over (river_of factors cards.now) out.old }
{
    let mut cursor = Cursor { out, at: 0 };
    put_opening(&mut cursor, cards.len() as u16, factors);
    for card in cards {
        put_card(&mut cursor, *card);
    }
}

// The file of the factors and the lent cards, or the first refusal.
pub fn write(factors: Option<RateFactors>, cards: &[Card], out: &mut [u8]) -> Result<usize, Refusal>
    ensures { Writes (length cards.now) (river_of factors cards.now) out.old result out.new }
{
    let length = check_all(factors, cards)?;
    if out.len() < length {
        return Err(Rule::BufferShort.at(0));
    }
    put_all(factors, cards, out);
    Ok(length)
}

// The file of a river, or the first refusal: a count above the array's length is refused here, as the writer refuses other counts.
pub fn write_cards(
    factors: Option<RateFactors>,
    cards: Cards,
    out: &mut [u8],
) -> Result<usize, Refusal>
    ensures { Writes cards.count (river_of factors (card_list cards)) out.old result out.new }
{
    let Some(lent) = cards.at.get(..usize::from(cards.count)) else {
        return Err(Rule::ReachCount.at(0));
    };
    write(factors, lent, out)
}
