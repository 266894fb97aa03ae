// Reading of a river file: the header, then card after card.
ghost use Rattle.std.specs.Prelude.{◌≡◌, Option, List, ℕ, IfOk, ◌<◌, ◌≤◌, ◌^◌, length, drop};
ghost use Rattle.river.specs.Card.{optional, blank};
ghost use Rattle.river.specs.Optional.{absent, read_optional};
ghost use Rattle.river.specs.Records.{Th, DM, NT, dam_record, nitrification_record, factors_record};
ghost use Rattle.river.specs.held.Layouts.{described, amount_record};
ghost use Rattle.river.specs.Read.{read_header, card_at, read_reach};
ghost use Rattle.river.specs.held.Optionals.{Decodes, Takes, ReadsOn, decoded, found_in, length_if};
ghost use Rattle.river.specs.held.Reader.{YieldsReach, records_read};

use crate::bytes::{behind, byte_at, four_at, marked, two_at};
use crate::card::{
    Card, DAM, Dam, FACTORS, Form, HEADER_BYTES, Layout, NITRIFICATION, Nitrification, Optionals,
    PRESSURE, REACH_BYTES, REACH_MARK, RIVER_MARK, RateFactors, SLUDGE, TAKE, layout_size,
    length_if,
};
use crate::range::{
    amount_in_range, count_ok, dam_in_range, factors_in_range, in_range, nitrification_in_range,
    outlet_ok,
};
use crate::refusal::{Refusal, Rule};

// What is read at a place, and the place behind it.
#[derive(Clone, Copy)]
pub struct Taken<T> {
    pub value: T,
    pub next: usize,
}

// The header of a file: refusals 1, 2 and 3, or the reach count.
#[tactic(auto, using(crate::proofs::Tests::ranges), unfolding(crate::specs::Read::read_header, crate::specs::Refusal::need, crate::specs::Card::count_ok))]
pub fn read_header(file: &[u8]) -> Result<u8, Refusal>
    ensures { result ≡ read_header file.now }
{
    if file.len() < HEADER_BYTES {
        return Err(Rule::CutShort.at(0));
    }
    if !marked(file, RIVER_MARK) {
        return Err(Rule::WrongMark.at(0));
    }
    let count = two_at(file, 2);
    if !count_ok(usize::from(count)) {
        return Err(Rule::ReachCount.at(0));
    }
    // A count in range fits a byte.
    Ok(count as u8)
}

// The value in the record of a form at the start, if the record is there: refusal 1 where the bytes end within it, and 4 where
// its decoder finds no value in range.
#[tactic(auto, using(crate::proofs::Tests::ranges), unfolding(crate::specs::held::Optionals::found_in, crate::specs::Refusal::choose, crate::specs::Refusal::need))]
fn value_here<T: Copy, F: FnOnce(&[u8]) -> Option<T>>(
    s: &[u8],
    reach: u8,
    form: Form,
    decode: F,
) -> Result<Option<T>, Refusal>
    requires { F.IsAlwaysCallable decode }
    ensures answer { (decoded : List ℕ → Option T) → Decodes F.FnOnce decode decoded → result ≡ found_in form.mark form.size reach s.now decoded }
    ensures room { IfOk result (λ v. length_if form.size v ≤ length s.now) }
{
    if !marked(s, form.mark) {
        return Ok(None);
    }
    if s.len() < form.size {
        return Err(Rule::CutShort.at(reach));
    }
    let value = decode(s).ok_or(Rule::FieldRange.at(reach))?;
    Ok(Some(value))
}

// The value in the record of a form at a place, if the record is there, and the place behind it: refusals 1 and 4. Bytes, place and reach come side by
// side here and below: the place moves on from record to record, so a struct of them would be made anew at each.
fn take<T: Copy, F: FnOnce(&[u8]) -> Option<T>>(
    s: &[u8],
    at: usize,
    reach: u8,
    form: Form,
    decode: F,
) -> Result<Taken<Option<T>>, Refusal>
    requires { F.IsAlwaysCallable decode }
    ensures { Takes F.FnOnce decode form.mark form.size reach s.now at result }
{
    let value = value_here(behind(s, at), reach, form, decode)?;
    Ok(Taken {
        value,
        next: at + length_if(form.size, value),
    })
}

// The rate factors in the bytes of a `TH` record, if they are in range. This and the next three are the decoders that `take` is handed: they have the
// fields of their records, and nothing else in common.
#[tactic(auto, unfolding(crate::specs::Fields::all_within))]
fn factors_in(bytes: &[u8]) -> Option<RateFactors>
    ensures { result ≡ decoded Th bytes.now }
{
    let factors = RateFactors {
        decay: two_at(bytes, 2),
        aeration: two_at(bytes, 4),
    };
    factors_in_range(Some(factors)).then_some(factors)
}

// The dam in the bytes of a `DM` record, if its fields are in range.
#[tactic(auto, unfolding(crate::specs::Fields::all_within))]
fn dam_in(bytes: &[u8]) -> Option<Dam>
    ensures { result ≡ decoded DM bytes.now }
{
    let dam = Dam {
        share: two_at(bytes, 2),
        generating: four_at(bytes, 4),
    };
    dam_in_range(Some(dam)).then_some(dam)
}

// The number in the bytes of a layout's record, if it is in range.
#[tactic(auto, unfolding(crate::specs::Fields::all_within))]
fn amount_in(bytes: &[u8], layout: Layout) -> Option<u32>
    ensures { result ≡ decoded (described layout) bytes.now }
{
    let amount = if layout.wide {
        four_at(bytes, 2)
    } else {
        u32::from(two_at(bytes, 2))
    };
    amount_in_range(layout, Some(amount)).then_some(amount)
}

// The nitrification in the bytes of an `NT` record, if its fields are in range and its last four bytes are all 0.
#[tactic(auto, unfolding(crate::specs::Fields::all_within))]
fn nitrification_in(bytes: &[u8]) -> Option<Nitrification>
    ensures { result ≡ decoded NT bytes.now }
{
    if four_at(bytes, 12) != 0 {
        return None;
    }
    let nitrification = Nitrification {
        rate: u32::from(two_at(bytes, 2)),
        concentration: four_at(bytes, 4),
        load: four_at(bytes, 8),
    };
    nitrification_in_range(Some(nitrification)).then_some(nitrification)
}

// The rate factors in the `TH` record at the start, if there is one: refusals 1 and 4.
pub fn read_factors(s: &[u8]) -> Result<Option<RateFactors>, Refusal>
    ensures { result ≡ read_optional factors_record 0 s.now }
{
    value_here(s, 0, FACTORS, factors_in)
}

// The dam in the `DM` record at a place, if there is one: refusals 1 and 4.
pub fn read_dam(s: &[u8], at: usize, reach: u8) -> Result<Taken<Option<Dam>>, Refusal>
    ensures { ReadsOn dam_record reach s.now at result }
{
    take(s, at, reach, DAM, dam_in)
}

// The amount in a layout's record at a place, if there is one: refusals 1 and 4.
pub(crate) fn read_amount(
    s: &[u8],
    at: usize,
    reach: u8,
    layout: Layout,
) -> Result<Taken<Option<u32>>, Refusal>
    ensures { ReadsOn (amount_record layout) reach s.now at result }
{
    let form = Form {
        mark: layout.mark,
        size: layout_size(layout),
    };
    take(s, at, reach, form, |bytes| amount_in(bytes, layout))
}

// The nitrification in the `NT` record at a place, if there is one: refusals 1 and 4, the latter also where its last four bytes are not all 0.
pub fn read_nitrification(
    s: &[u8],
    at: usize,
    reach: u8,
) -> Result<Taken<Option<Nitrification>>, Refusal>
    ensures { ReadsOn nitrification_record reach s.now at result }
{
    take(s, at, reach, NITRIFICATION, nitrification_in)
}

// The records that may follow an `RE` record, each behind the one before it: its card with what they hold, or the first refusal.
fn read_records(s: &[u8], reach: u8, plain: Card) -> Result<Taken<Card>, Refusal>
    ensures { YieldsReach 0 (records_read reach s.now plain) result }
{
    let dam = read_dam(s, REACH_BYTES, reach)?;
    let take = read_amount(s, dam.next, reach, TAKE)?;
    let pressure = read_amount(s, take.next, reach, PRESSURE)?;
    let sludge = read_amount(s, pressure.next, reach, SLUDGE)?;
    let nitrification = read_nitrification(s, sludge.next, reach)?;
    Ok(Taken {
        value: Card {
            dam: dam.value,
            optionals: Optionals {
                take: take.value,
                pressure: pressure.value,
                sludge: sludge.value,
                nitrification: nitrification.value,
            },
            ..plain
        },
        next: nitrification.next,
    })
}

// The card in an `RE` record, without what the records that follow hold.
#[tactic(auto, unfolding(crate::specs::Read::card_at))]
fn plain_card(s: &[u8]) -> Card
    ensures { result ≡ card_at s.now (absent optional) }
{
    Card {
        outlet: byte_at(s, 2),
        temperature: byte_at(s, 3),
        k1: u32::from(two_at(s, 4)),
        k2: u32::from(two_at(s, 6)),
        volume: four_at(s, 8),
        inflow: four_at(s, 12),
        inflow_bod: four_at(s, 16),
        inflow_oxygen: two_at(s, 20),
        load: four_at(s, 22),
        ..Card::default()
    }
}

// A card of zeros, without a dam and optional fields.
pub fn blank() -> Card
    ensures { result ≡ blank }
{
    Card::default()
}

// A reach at the start, at a position of the file: refusals 1, 2, 4 and 5, then those of the records behind its `RE` record.
#[tactic(auto, using(crate::proofs::Tests::ranges), unfolding(crate::specs::Read::read_reach, crate::specs::Read::card_at, crate::specs::Refusal::need, crate::specs::Refusal::after))]
fn read_here(s: &[u8], at: usize, count: u8, reach: u8) -> Result<Taken<Card>, Refusal>
    requires { at < 2 ^ 63 }
    ensures { YieldsReach at (read_reach count reach s.now) result }
{
    if s.len() < REACH_BYTES {
        return Err(Rule::CutShort.at(reach));
    }
    if !marked(s, REACH_MARK) {
        return Err(Rule::WrongMark.at(reach));
    }
    let plain = plain_card(s);
    if !in_range(plain) {
        return Err(Rule::FieldRange.at(reach));
    }
    if !outlet_ok(count, reach, plain.outlet) {
        return Err(Rule::WrongOutlet.at(reach));
    }
    let read = read_records(s, reach, plain)?;
    Ok(Taken {
        value: read.value,
        next: at + read.next,
    })
}

// The reach at a position of a file.
#[tactic(auto, using(crate::proofs::Tests::ranges), unfolding(crate::specs::Read::read_reach, crate::specs::Refusal::need, crate::specs::Refusal::after))]
pub fn read_reach(file: &[u8], at: usize, count: u8, reach: u8) -> Result<Taken<Card>, Refusal>
    ensures { YieldsReach at (read_reach count reach (drop at file.now)) result }
{
    if file.len() < at {
        return Err(Rule::CutShort.at(reach));
    }
    read_here(behind(file, at), at, count, reach)
}
