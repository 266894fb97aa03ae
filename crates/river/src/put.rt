// Records put into a buffer. The records that may follow have a mark in common and no more: each puts the fields of its own value behind it, and
// a function of them all would be handed these lines as a closure.
ghost use Rattle.std.specs.Prelude.{◌≡◌, length};
ghost use Rattle.river.specs.Card.{header_bytes, reach_bytes, optional, optional_of, size_of};
ghost use Rattle.river.specs.Optional.{encode_optionals, optionals_in_range};
ghost use Rattle.river.specs.Fields.{bytes_of, number_bytes};
ghost use Rattle.river.specs.Records.{dam_record, nitrification_record, factors_record};
ghost use Rattle.river.specs.held.Cursors.{Room, Puts};
ghost use Rattle.river.specs.held.Layouts.{width_of, amount_record};
ghost use Rattle.river.specs.River.{opening_size};
ghost use Rattle.river.specs.Write.{encode_reach, encode_card, encode_header, encode_opening};

use crate::bytes::Cursor;
use crate::card::{
    Card, DAM, Dam, FACTORS, Layout, NITRIFICATION, Nitrification, PRESSURE, REACH_BYTES,
    REACH_MARK, RIVER_MARK, RateFactors, SLUDGE, TAKE, layout_size, length_if,
};
use crate::range::{amount_in_range, dam_in_range, nitrification_in_range};

// The `RV` record of a reach count.
pub fn put_header(cursor: &mut Cursor<'_>, count: u16)
    requires { Room cursor.old header_bytes }
    ensures { Puts cursor.old (encode_header count) cursor.new }
{
    cursor.mark(RIVER_MARK);
    cursor.two(count);
}

// The `TH` record of rate factors, if there are some.
fn put_factors(cursor: &mut Cursor<'_>, f: Option<RateFactors>)
    requires { Room cursor.old (length (factors_record.encode f)) }
    ensures { Puts cursor.old (factors_record.encode f) cursor.new }
{
    if let Some(factors) = f {
        cursor.mark(FACTORS.mark);
        cursor.two(factors.decay);
        cursor.two(factors.aeration);
    }
}

// The opening of a file: the header, and the record of rate factors, if there are some.
pub fn put_opening(cursor: &mut Cursor<'_>, count: u16, factors: Option<RateFactors>)
    requires { Room cursor.old (opening_size factors) }
    ensures { Puts cursor.old (encode_opening count factors) cursor.new }
{
    put_header(cursor, count);
    put_factors(cursor, factors);
}

// The `RE` record of a card.
fn put_reach(cursor: &mut Cursor<'_>, c: Card)
    requires { Room cursor.old reach_bytes }
    ensures { Puts cursor.old (encode_reach c) cursor.new }
{
    cursor.mark(REACH_MARK);
    cursor.byte(c.outlet);
    cursor.byte(c.temperature);
    cursor.narrow(c.k1);
    cursor.narrow(c.k2);
    cursor.four(c.volume);
    cursor.four(c.inflow);
    cursor.four(c.inflow_bod);
    cursor.two(c.inflow_oxygen);
    cursor.four(c.load);
}

// The `DM` record of a dam, if there is one.
fn put_dam(cursor: &mut Cursor<'_>, d: Option<Dam>)
    requires { Room cursor.old (length (dam_record.encode d)) }
    ensures { Puts cursor.old (dam_record.encode d) cursor.new }
{
    if let Some(dam) = d {
        cursor.mark(DAM.mark);
        cursor.two(dam.share);
        cursor.four(dam.generating);
    }
}

// A number of four bytes or two.
fn put_number(cursor: &mut Cursor<'_>, wide: bool, n: u32)
    requires { Room cursor.old (bytes_of (width_of wide)) }
    ensures { Puts cursor.old (number_bytes (width_of wide) n) cursor.new }
{
    if wide {
        cursor.four(n);
    } else {
        cursor.narrow(n);
    }
}

// The record of an amount, if there is one.
fn put_amount(cursor: &mut Cursor<'_>, layout: Layout, amount: Option<u32>)
    requires { Room cursor.old (length ((amount_record layout).encode amount)) }
    ensures { Puts cursor.old ((amount_record layout).encode amount) cursor.new }
{
    if let Some(n) = amount {
        cursor.mark(layout.mark);
        put_number(cursor, layout.wide, n);
    }
}

// The `NT` record of a nitrification, if there is one.
fn put_nitrification(cursor: &mut Cursor<'_>, n: Option<Nitrification>)
    requires { Room cursor.old (length (nitrification_record.encode n)) }
    ensures { Puts cursor.old (nitrification_record.encode n) cursor.new }
{
    if let Some(nitrification) = n {
        cursor.mark(NITRIFICATION.mark);
        cursor.narrow(nitrification.rate);
        cursor.four(nitrification.concentration);
        cursor.four(nitrification.load);
        cursor.four(0);
    }
}

// The records of a card that follow its `RE` record. This and the next two functions each name them; since their contracts go by `optional`, none
// can be left out of one.
fn put_optionals(cursor: &mut Cursor<'_>, c: Card)
    requires { Room cursor.old (length (encode_optionals optional (optional_of c))) }
    ensures { Puts cursor.old (encode_optionals optional (optional_of c)) cursor.new }
{
    put_dam(cursor, c.dam);
    put_amount(cursor, TAKE, c.optionals.take);
    put_amount(cursor, PRESSURE, c.optionals.pressure);
    put_amount(cursor, SLUDGE, c.optionals.sludge);
    put_nitrification(cursor, c.optionals.nitrification);
}

// Whether the fields of the records that follow a card's `RE` record are in range.
#[tactic(auto, unfolding(crate::specs::Optional::optionals_in_range))]
pub fn optionals_in_range(c: Card) -> bool
    ensures { result ≡ optionals_in_range optional (optional_of c) }
{
    dam_in_range(c.dam)
        && amount_in_range(TAKE, c.optionals.take)
        && amount_in_range(PRESSURE, c.optionals.pressure)
        && amount_in_range(SLUDGE, c.optionals.sludge)
        && nitrification_in_range(c.optionals.nitrification)
}

// The length of a card's records.
pub fn size_of(c: Card) -> usize
    ensures { result ≡ size_of c }
{
    REACH_BYTES
        + length_if(DAM.size, c.dam)
        + length_if(layout_size(TAKE), c.optionals.take)
        + length_if(layout_size(PRESSURE), c.optionals.pressure)
        + length_if(layout_size(SLUDGE), c.optionals.sludge)
        + length_if(NITRIFICATION.size, c.optionals.nitrification)
}

// The records of a card.
pub fn put_card(cursor: &mut Cursor<'_>, c: Card)
    requires { Room cursor.old (size_of c) }
    ensures { Puts cursor.old (encode_card c) cursor.new }
{
    put_reach(cursor, c);
    put_optionals(cursor, c);
}
