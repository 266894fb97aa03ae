// What stands behind the kind in a case to write or to copy: whether it has rate factors, the two of them, how many reaches it has, the room for its file,
// and then two cards, of which a river of one reach has the first, or a file. The numbers of these cards have as many bytes as in memory, so that
// a card may be one that no file holds. A case to read has its file behind the kind.
use river::bytes::{behind, byte_at, four_at, two_at};
use river::card::{Card, Cards, Dam, Nitrification, Optionals, REACHES, RateFactors};

// The kinds of cases: a file to read, a river to write, a file whose cards are written, and the length of the longest file.
#[derive(Clone, Copy)]
pub enum Kind {
    Read,
    Write,
    Copy,
    Longest,
}

// Places in a case.
const KIND: usize = 0;

const READ: usize = 1;

const FACTORS: usize = 1;

const COUNT: usize = 6;

const ROOM: usize = 7;

const FIRST: usize = 9;

const SECOND: usize = 72;

// Places in a card: those of its records after the reach, each behind a byte that tells whether it is there.
const DAM: usize = 28;

const TAKE: usize = 35;

const PRESSURE: usize = 40;

const SLUDGE: usize = 45;

const NITRIFICATION: usize = 50;

// The kind of a case, if it is one. A `TryFrom` would need an error that nobody reads.
pub fn kind_in(case: &[u8]) -> Option<Kind> {
    match byte_at(case, KIND) {
        0 => Some(Kind::Read),
        1 => Some(Kind::Write),
        2 => Some(Kind::Copy),
        3 => Some(Kind::Longest),
        _ => None,
    }
}

// The file of a case that is read.
pub fn read_in(case: &[u8]) -> &[u8] {
    behind(case, READ)
}

// The file of a case whose cards are written.
pub fn copied_in(case: &[u8]) -> &[u8] {
    behind(case, FIRST)
}

pub fn count_in(case: &[u8]) -> u8 {
    byte_at(case, COUNT)
}

pub fn room_in(case: &[u8]) -> usize {
    usize::from(two_at(case, ROOM))
}

// What stands behind the byte at a place that tells whether it is there.
fn record_in(s: &[u8], at: usize) -> Option<&[u8]> {
    let (given, record) = behind(s, at).split_first()?;
    if *given == 0 { None } else { Some(record) }
}

// The rate factors of a case.
pub fn factors_in(case: &[u8]) -> Option<RateFactors> {
    let record = record_in(case, FACTORS)?;
    Some(RateFactors {
        decay: two_at(record, 0),
        aeration: two_at(record, 2),
    })
}

// The dam of a card. A record has fields of its own, which a function for all would be handed as a closure.
fn dam_in(card: &[u8]) -> Option<Dam> {
    let record = record_in(card, DAM)?;
    Some(Dam {
        share: two_at(record, 0),
        generating: four_at(record, 2),
    })
}

// The number of a record that has one.
fn amount_in(card: &[u8], at: usize) -> Option<u32> {
    Some(four_at(record_in(card, at)?, 0))
}

fn nitrification_in(card: &[u8]) -> Option<Nitrification> {
    let record = record_in(card, NITRIFICATION)?;
    Some(Nitrification {
        rate: four_at(record, 0),
        concentration: four_at(record, 4),
        load: four_at(record, 8),
    })
}

fn optionals_in(card: &[u8]) -> Optionals {
    Optionals {
        take: amount_in(card, TAKE),
        pressure: amount_in(card, PRESSURE),
        sludge: amount_in(card, SLUDGE),
        nitrification: nitrification_in(card),
    }
}

fn card_in(card: &[u8]) -> Card {
    Card {
        outlet: byte_at(card, 0),
        temperature: byte_at(card, 1),
        inflow_oxygen: two_at(card, 2),
        k1: four_at(card, 4),
        k2: four_at(card, 8),
        volume: four_at(card, 12),
        inflow: four_at(card, 16),
        inflow_bod: four_at(card, 20),
        load: four_at(card, 24),
        dam: dam_in(card),
        optionals: optionals_in(card),
    }
}

// The cards of a case.
pub fn river_in(case: &[u8]) -> Cards {
    let second = card_in(behind(case, SECOND));
    let mut at = [second; REACHES];
    at[0] = card_in(behind(case, FIRST));
    Cards {
        at,
        count: count_in(case),
    }
}
