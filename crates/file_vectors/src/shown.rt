// Readings and writings, printed.
use printing::Out;
use river::card::{Card, Cards, Dam, LONGEST_FILE, Nitrification, REACHES, RateFactors};
use river::file::read_file;
use river::read::blank;
use river::refusal::Refusal;
use river::rewrite::rewrite;
use river::writer::write_cards;
use std::fmt;
use std::fmt::Write;

// The length of the buffer to which a file that was read is written back.
const REWRITE_ROOM: usize = 100;

// A word, and each number behind a space.
fn numbers(out: &mut Out, word: &str, list: &[u32]) -> fmt::Result {
    write!(out, "{word}")?;
    for n in list {
        write!(out, " {n}")?;
    }
    Ok(())
}

// A dam. Each record is printed by itself, since it has a word and numbers of its own.
fn dam(out: &mut Out, d: Option<Dam>) -> fmt::Result {
    if let Some(Dam { share, generating }) = d {
        numbers(out, " dam", &[u32::from(share), generating])?;
    }
    Ok(())
}

// An optional record of one number.
fn amount(out: &mut Out, word: &str, a: Option<u32>) -> fmt::Result {
    if let Some(n) = a {
        numbers(out, word, &[n])?;
    }
    Ok(())
}

fn nitrification(out: &mut Out, n: Option<Nitrification>) -> fmt::Result {
    if let Some(
        Nitrification {
            rate,
            concentration,
            load,
        },
    ) = n
    {
        numbers(out, " ammonia", &[rate, concentration, load])?;
    }
    Ok(())
}

// The numbers of a card's reach.
fn reach(out: &mut Out, c: Card) -> fmt::Result {
    write!(out, "{} {} {} {}", c.outlet, c.temperature, c.k1, c.k2)?;
    write!(out, " {} {} {}", c.volume, c.inflow, c.inflow_bod)?;
    write!(out, " {} {}", c.inflow_oxygen, c.load)
}

// A card, on a line.
fn card(out: &mut Out, c: Card) -> fmt::Result {
    reach(out, c)?;
    dam(out, c.dam)?;
    let o = c.optionals;
    amount(out, " take", o.take)?;
    amount(out, " pressure", o.pressure)?;
    amount(out, " sludge", o.sludge)?;
    nitrification(out, o.nitrification)?;
    writeln!(out)
}

// The rate factors of a river, on a line where there are some.
fn rate_factors(out: &mut Out, f: Option<RateFactors>) -> fmt::Result {
    if let Some(RateFactors { decay, aeration }) = f {
        numbers(out, "factors", &[u32::from(decay), u32::from(aeration)])?;
        writeln!(out)?;
    }
    Ok(())
}

// The first cards of a river.
fn cards(out: &mut Out, river: Cards) -> fmt::Result {
    let at = river.at;
    for c in at.iter().take(usize::from(river.count)) {
        card(out, *c)?;
    }
    Ok(())
}

// The bytes of a buffer, on a line. Their digits go past `Out`: `{:02x}` writes a leading 0 by itself, and these are most of what this program writes.
fn buffer(out: &mut Out, bytes: &[u8]) -> fmt::Result {
    for byte in bytes {
        io::print_hex(1, u64::from(*byte), 2);
    }
    writeln!(out)
}

// How many bytes a writing wrote, or its refusal.
fn written(out: &mut Out, answer: Result<usize, Refusal>) -> fmt::Result {
    match answer {
        Ok(length) => writeln!(out, "wrote {length}"),
        Err(refusal) => writeln!(out, "{refusal}"),
    }
}

// What writing a river with these rate factors to a buffer of so many bytes answers, and what it leaves there.
pub fn wrote(
    out: &mut Out,
    factors: Option<RateFactors>,
    river: Cards,
    room: usize,
) -> fmt::Result {
    let mut bytes = [7u8; LONGEST_FILE];
    let lent = &mut bytes[..room.min(LONGEST_FILE)];
    written(out, write_cards(factors, river, lent))?;
    buffer(out, lent)
}

// What writing a file back that was read answers, and what it leaves in a buffer.
fn rewrote(out: &mut Out, file: &[u8]) -> fmt::Result {
    let mut bytes = [7u8; REWRITE_ROOM];
    written(out, rewrite(file, &mut bytes).map(|_| file.len()))?;
    buffer(out, &bytes)
}

// What reading a file answers, and writing it back.
pub fn show(out: &mut Out, file: &[u8]) -> fmt::Result {
    match read_file(file) {
        Err(refusal) => writeln!(out, "{refusal}"),
        Ok(reading) => {
            writeln!(out, "read {}", reading.cards.count)?;
            rate_factors(out, reading.factors)?;
            cards(out, reading.cards)?;
            rewrote(out, file)
        }
    }
}

// How many cards a file is read as, none if it is refused.
fn reread(out: &mut Out, file: &[u8]) -> fmt::Result {
    let count = read_file(file).map_or(0, |reading| reading.cards.count);
    writeln!(out, "read {count}")
}

// Writing of the first cards that a file is read as, so many of them, with these rate factors, and what the new file is read as. The cards of a
// file that is refused are blank.
pub fn copied(out: &mut Out, factors: Option<RateFactors>, n: u8, file: &[u8]) -> fmt::Result {
    let at = read_file(file).map_or([blank(); REACHES], |reading| reading.cards.at);
    let mut bytes = [0u8; LONGEST_FILE];
    let answer = write_cards(factors, Cards { at, count: n }, &mut bytes);
    written(out, answer)?;
    if let Ok(length) = answer {
        reread(out, &bytes[..length.min(LONGEST_FILE)])?;
    }
    Ok(())
}
