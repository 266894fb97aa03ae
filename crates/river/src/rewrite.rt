// A file that is read and written back, and a river that is written and read back.
ghost use Rattle.river.specs.River.{river_of};
ghost use Rattle.river.specs.Rewrite.{WritesBack, ReadsBack};

use crate::card::{Card, RateFactors};
use crate::file::{Reading, read_file};
use crate::refusal::Refusal;
use crate::writer::{write, write_cards};

// A file is read and written back: the same bytes, or the refusal of reading, or 12 where the buffer is shorter than the file.
pub fn rewrite(file: &[u8], out: &mut [u8]) -> Result<(), Refusal>
    ensures { WritesBack file.now out.old result out.new }
{
    // The `?` is written out, so that an answer that is wrong for a refused file fails at what is promised, and not at a name in its proof.
    let reading = match read_file(file) {
        Ok(reading) => reading,
        Err(refusal) => return Err(refusal),
    };
    write_cards(reading.factors, reading.cards, out)?;
    Ok(())
}

// Rate factors and lent cards are written and their file is read: the same river, or the refusal of writing.
pub fn written_back(
    factors: Option<RateFactors>,
    cards: &[Card],
    out: &mut [u8],
) -> Result<Reading, Refusal>
    ensures { ReadsBack (river_of factors cards.now) out.old result out.new }
{
    let length = write(factors, cards, out)?;
    read_file(&out[..length])
}
