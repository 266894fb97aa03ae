// Reading of a whole river file.
ghost use Rattle.river.specs.File.{Reads};

use crate::bytes::behind;
use crate::card::{Cards, HEADER_BYTES, REACHES, RateFactors, factors_size};
use crate::read::{blank, read_factors, read_header};
use crate::reader::Reader;
use crate::refusal::{Refusal, Rule};

// What reading a file yields: the river's rate factors and cards.
#[derive(Clone, Copy)]
pub struct Reading {
    pub factors: Option<RateFactors>,
    pub cards: Cards,
}

// A river file: its opening, then card after card, then its end.
pub fn read_file(file: &[u8]) -> Result<Reading, Refusal>
    ensures { Reads file.now result }
{
    let count = read_header(file)?;
    let factors = read_factors(behind(file, HEADER_BYTES))?;
    let mut at = [blank(); REACHES];
    let mut reader = Reader::new(file).moved(HEADER_BYTES + factors_size(factors));
    for i in 0..count {
        let reach = reader.next(count, i + 1)?;
        at[usize::from(i)] = reach.value;
        reader = reader.moved(reach.next);
    }
    let more = reader.at < file.len();
    if more {
        return Err(Rule::BytesLeft.at(0));
    }
    Ok(Reading {
        factors,
        cards: Cards { at, count },
    })
}
