// The record of a reach: an `RP` record and, in a river with nitrification, an `RN` record behind it.
ghost use Rattle.std.specs.Prelude.{◌≡◌, ◌*◌, ◌≤◌, ◌<◌, length};
ghost use Rattle.river.specs.Bytes.{four_bytes, four_at};
ghost use Rattle.river.specs.held.Cursors.{Room, Puts};
ghost use Rattle.river.specs.Card.{card_list};
ghost use Rattle.flows.specs.held.Stored.{oxygen_of};
ghost use Rattle.report.specs.Record.{has_nitrification, complement, from_complement, plain_bytes, nitrogenous_bytes, encode_plain, encode_nitrogenous, encode_record, record_bytes, record_size, record_at, nitrogenous_at, read_record};
ghost use Rattle.report.specs.held.LineFigures.{figures_in};

use flows::flow;
use flows::head::STORED_ZERO;
use river::bytes;
use river::bytes::{Cursor, Mark};
use river::card::Cards;

// How many bytes an `RP` record has, and an `RN` record.
pub const RP_SIZE: usize = 30;

pub const RN_SIZE: usize = 10;

// Their marks.
const PLAIN_MARK: Mark = Mark {
    first: b'R',
    second: b'P',
};

const NITROGENOUS_MARK: Mark = Mark {
    first: b'R',
    second: b'N',
};

// The figures of a reach. Oxygen is stored as its units plus 2^31, and the status as its number, since a record that is read may have any byte there.
#[derive(Clone, Copy)]
pub struct Line {
    pub depth: u8,
    pub flow: u32,
    pub head_bod: u32,
    pub foot_bod: u32,
    pub head_oxygen: u32,
    pub critical_instant: u16,
    pub critical_oxygen: u32,
    pub foot_oxygen: u32,
    pub status: u8,
    pub head_nitrogenous: u32,
    pub foot_nitrogenous: u32,
}

// Whether a river has nitrification at any reach.
pub fn has_nitrification(cards: Cards) -> bool
    ensures { result ≡ has_nitrification (card_list cards) }
{
    cards.at[..flow::reach_count(cards.count)]
        .iter()
        .any(|card| card.optionals.nitrification.is_some())
}

// How many bytes a record has, by whether its river has nitrification.
pub fn record_bytes(nitrified: bool) -> usize
    ensures { result ≡ record_bytes nitrified }
{
    if nitrified {
        RP_SIZE + RN_SIZE
    } else {
        RP_SIZE
    }
}

// How many bytes a river's records have each.
pub fn record_size(cards: Cards) -> usize
    ensures { result ≡ record_size (card_list cards) }
{
    record_bytes(has_nitrification(cards))
}

// Stored oxygen in two's complement, and back: the two differ in the topmost bit.
pub fn complement(oxygen: u32) -> u32
    ensures value { result ≡ complement (oxygen_of oxygen) }
    ensures result_value { oxygen_of result ≡ from_complement oxygen }
{
    oxygen.wrapping_add(STORED_ZERO)
}

// Puts stored oxygen in two's complement.
pub fn put_complement(cursor: &mut Cursor<'_>, oxygen: u32)
    requires { Room cursor.old 4 }
    ensures { Puts cursor.old (four_bytes (complement (oxygen_of oxygen))) cursor.new }
{
    cursor.four(complement(oxygen));
}

// The `RP` record of a line.
fn put_plain(cursor: &mut Cursor<'_>, line: Line)
    requires { Room cursor.old plain_bytes }
    ensures { Puts cursor.old (encode_plain (figures_in line)) cursor.new }
{
    cursor.mark(PLAIN_MARK);
    cursor.byte(line.depth);
    cursor.four(line.flow);
    cursor.four(line.head_bod);
    cursor.four(line.foot_bod);
    put_complement(cursor, line.head_oxygen);
    cursor.two(line.critical_instant);
    put_complement(cursor, line.critical_oxygen);
    put_complement(cursor, line.foot_oxygen);
    cursor.byte(line.status);
}

// The `RN` record of a line.
fn put_nitrogenous(cursor: &mut Cursor<'_>, line: Line)
    requires { Room cursor.old nitrogenous_bytes }
    ensures { Puts cursor.old (encode_nitrogenous (figures_in line)) cursor.new }
{
    cursor.mark(NITROGENOUS_MARK);
    cursor.four(line.head_nitrogenous);
    cursor.four(line.foot_nitrogenous);
}

// Puts the record of a line, by whether its river has nitrification.
pub fn put_record(cursor: &mut Cursor<'_>, line: Line, nitrified: bool)
    requires { Room cursor.old (record_bytes nitrified) }
    ensures { Puts cursor.old (encode_record nitrified (figures_in line)) cursor.new }
{
    put_plain(cursor, line);
    if nitrified {
        put_nitrogenous(cursor, line);
    }
}

// Stored oxygen from the four bytes from a place on.
fn complement_at(s: &[u8], k: usize) -> u32
    requires { k < 62 }
    ensures { oxygen_of result ≡ from_complement (four_at s.now k) }
{
    complement(bytes::four_at(s, k))
}

// Nitrogenous BOD from the four bytes from a place on, and 0 in a river without nitrification.
fn nitrogenous_at(s: &[u8], nitrified: bool, k: usize) -> u32
    requires { k < 62 }
    ensures { result ≡ nitrogenous_at nitrified s.now k }
{
    if nitrified { bytes::four_at(s, k) } else { 0 }
}

// The line of the record at the start of some bytes.
fn line_in(s: &[u8], nitrified: bool) -> Line
    ensures { figures_in result ≡ read_record nitrified s.now }
{
    Line {
        depth: bytes::byte_at(s, 2),
        flow: bytes::four_at(s, 3),
        head_bod: bytes::four_at(s, 7),
        foot_bod: bytes::four_at(s, 11),
        head_oxygen: complement_at(s, 15),
        critical_instant: bytes::two_at(s, 19),
        critical_oxygen: complement_at(s, 21),
        foot_oxygen: complement_at(s, 25),
        status: bytes::byte_at(s, 29),
        head_nitrogenous: nitrogenous_at(s, nitrified, 32),
        foot_nitrogenous: nitrogenous_at(s, nitrified, 36),
    }
}

// The line at place i of a report, by whether its river has nitrification.
pub fn read_record(report: &[u8], nitrified: bool, i: usize) -> Line
    requires { record_bytes nitrified * i ≤ length report.now }
    ensures { figures_in result ≡ read_record nitrified (record_at (record_bytes nitrified) report.now i) }
{
    let from = record_bytes(nitrified) * i;
    line_in(&report[from..], nitrified)
}
