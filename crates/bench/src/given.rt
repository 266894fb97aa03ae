// What stands in a case: its kind, the length of its name, the room for the answer, how many reaches are shown, whether with the status, how
// many units the figures of equal rates may be off, or 0 where they are not compared, the name, and the file.
use river::bytes::{behind, byte_at, two_at};

// The kinds of cases: a report, the size of a reach in it, and means.
#[derive(Clone, Copy)]
pub enum Kind {
    Report,
    Size,
    Means,
}

// Places in a case.
const KIND: usize = 0;

const NAME_LENGTH: usize = 1;

const ROOM: usize = 2;

const SHOWN: usize = 4;

const STATUS: usize = 5;

const MOST_OFF: usize = 6;

const NAME: usize = 8;

// The kind of a case, if it is one. A `TryFrom` would need an error that nobody reads.
pub fn kind_in(case: &[u8]) -> Option<Kind> {
    match byte_at(case, KIND) {
        0 => Some(Kind::Report),
        1 => Some(Kind::Size),
        2 => Some(Kind::Means),
        _ => None,
    }
}

pub fn room_in(case: &[u8]) -> usize {
    usize::from(two_at(case, ROOM))
}

pub fn shown_in(case: &[u8]) -> usize {
    usize::from(byte_at(case, SHOWN))
}

pub fn has_status(case: &[u8]) -> bool {
    byte_at(case, STATUS) != 0
}

pub fn most_off_in(case: &[u8]) -> u32 {
    u32::from(two_at(case, MOST_OFF))
}

fn name_length(case: &[u8]) -> usize {
    usize::from(byte_at(case, NAME_LENGTH))
}

// The name, or all that is left of a case that ends within it.
pub fn name_in(case: &[u8]) -> &[u8] {
    let rest = behind(case, NAME);
    rest.get(..name_length(case)).unwrap_or(rest)
}

pub fn file_in(case: &[u8]) -> &[u8] {
    behind(behind(case, NAME), name_length(case))
}
