// The cards of a river, and its rate factors.
ghost use Rattle.std.specs.Prelude.{◌≡◌, length};
ghost use Rattle.river.specs.Card.{with_nitrification, amount_or};
ghost use Rattle.river.specs.Records.{factors_record};
ghost use Rattle.river.specs.held.Layouts.{amount_record};
ghost use Rattle.river.specs.held.Optionals.{length_if};
ghost use Rattle.river.specs.River.{longest_file};

use crate::bytes::Mark;

// The marks of the records `RV` and `RE`.
pub(crate) const RIVER_MARK: Mark = Mark {
    first: b'R',
    second: b'V',
};

pub(crate) const REACH_MARK: Mark = Mark {
    first: b'R',
    second: b'E',
};

// The form of a record that may follow or not: its mark, and its length with the mark.
#[derive(Clone, Copy)]
pub(crate) struct Form {
    pub mark: Mark,
    pub size: usize,
}

// The forms of the records `TH`, `DM` and `NT`.
pub(crate) const FACTORS: Form = Form {
    mark: Mark {
        first: b'T',
        second: b'H',
    },
    size: FACTORS_BYTES,
};

pub(crate) const DAM: Form = Form {
    mark: Mark {
        first: b'D',
        second: b'M',
    },
    size: DAM_BYTES,
};

pub(crate) const NITRIFICATION: Form = Form {
    mark: Mark {
        first: b'N',
        second: b'T',
    },
    size: NITRIFICATION_BYTES,
};

// The lengths of the records `RV`, `TH`, `RE`, `DM`, `WD`, `BP`, `SD` and `NT`.
pub const HEADER_BYTES: usize = 4;

pub const FACTORS_BYTES: usize = 6;

pub const REACH_BYTES: usize = 26;

pub const DAM_BYTES: usize = 8;

const TAKE_BYTES: usize = WIDE_BYTES;

const PRESSURE_BYTES: usize = NARROW_BYTES;

const SLUDGE_BYTES: usize = NARROW_BYTES;

pub const NITRIFICATION_BYTES: usize = 16;

// The lengths of a record of one number: a mark and four bytes, or two.
const WIDE_BYTES: usize = 6;

const NARROW_BYTES: usize = 4;

// The most litres a second in a field.
pub(crate) const FLOW_MOST: u32 = 100_000_000;

// The most reaches of a river.
pub const REACHES: usize = 128;

// The length of the longest card's records, and of the longest file.
pub const LONGEST_CARD: usize = REACH_BYTES
    + DAM_BYTES
    + TAKE_BYTES
    + PRESSURE_BYTES
    + SLUDGE_BYTES
    + NITRIFICATION_BYTES;

pub const LONGEST_FILE: usize = HEADER_BYTES + FACTORS_BYTES + REACHES * LONGEST_CARD;

// A dam: an aeration share, in thousandths, and a generating flow, in litres a second.
#[derive(Clone, Copy)]
pub struct Dam {
    pub share: u16,
    pub generating: u32,
}

// The nitrification of a reach: a rate, in thousandths per day, the nitrogenous BOD of the inflow, in thousandths of mg/L, and a load of it, in
// milligrams a second.
#[derive(Clone, Copy, Default)]
pub struct Nitrification {
    pub rate: u32,
    pub concentration: u32,
    pub load: u32,
}

// The rate factors of a river, in thousandths for each degree: one for the decay of both demands and one for surface aeration. A river without
// them has its rates in force as its cards give them.
#[derive(Clone, Copy)]
pub struct RateFactors {
    pub decay: u16,
    pub aeration: u16,
}

// The layout of a record of one number: its mark, whether the number has four bytes or two, and its range.
#[derive(Clone, Copy)]
pub struct Layout {
    pub mark: Mark,
    pub wide: bool,
    pub least: u32,
    pub most: u32,
}

// The layout of a `WD` record.
pub(crate) const TAKE: Layout = Layout {
    mark: Mark {
        first: b'W',
        second: b'D',
    },
    wide: true,
    least: 0,
    most: FLOW_MOST,
};

// The layout of a `BP` record.
pub(crate) const PRESSURE: Layout = Layout {
    mark: Mark {
        first: b'B',
        second: b'P',
    },
    wide: false,
    least: 500,
    most: 800,
};

// The layout of an `SD` record.
pub(crate) const SLUDGE: Layout = Layout {
    mark: Mark {
        first: b'S',
        second: b'D',
    },
    wide: false,
    least: 0,
    most: 65_535,
};

// What a card may have beside its dam: a take in litres a second, a pressure in mm of mercury, the demand of a sludge bed, in thousandths of
// mg/L a day, and a nitrification.
#[derive(Clone, Copy, Default)]
pub struct Optionals {
    pub take: Option<u32>,
    pub pressure: Option<u32>,
    pub sludge: Option<u32>,
    pub nitrification: Option<Nitrification>,
}

// A reach card: the numbers of its `RE` record, the short ones first so that there is no padding between them, its dam, and what else it may
// have. A rate has two bytes in a file; a card with the rates in force may have larger ones, which check 15 refuses.
#[derive(Clone, Copy, Default)]
pub struct Card {
    pub outlet: u8,
    pub temperature: u8,
    pub inflow_oxygen: u16,
    pub k1: u32,
    pub k2: u32,
    pub volume: u32,
    pub inflow: u32,
    pub inflow_bod: u32,
    pub load: u32,
    pub dam: Option<Dam>,
    pub optionals: Optionals,
}

// The cards of a river: the first `count` of them. The count stands beside the array since `write_cards` promises refusal 3 for one above 128,
// which a slice or an array of the cards alone could not have.
#[derive(Clone, Copy)]
pub struct Cards {
    pub at: [Card; REACHES],
    pub count: u8,
}

// Optional fields with another nitrification.
pub fn with_nitrification(nitrification: Option<Nitrification>, optionals: Optionals) -> Optionals
    ensures { result ≡ with_nitrification nitrification optionals }
{
    Optionals {
        nitrification,
        ..optionals
    }
}

// The length of a record, if there is one.
pub(crate) fn length_if<T: Copy>(size: usize, value: Option<T>) -> usize
    ensures { result ≡ length_if size value }
{
    match value {
        None => 0,
        Some(_) => size,
    }
}

// The length of the record of rate factors, if there is one.
pub(crate) fn factors_size(factors: Option<RateFactors>) -> usize
    ensures { result ≡ length (factors_record.encode factors) }
{
    length_if(FACTORS_BYTES, factors)
}

// The length of a record of one number.
pub(crate) fn layout_size(layout: Layout) -> usize
    ensures { result ≡ (amount_record layout).size }
{
    if layout.wide {
        WIDE_BYTES
    } else {
        NARROW_BYTES
    }
}

// An amount, or what stands for none.
pub fn amount_or(none: u32, amount: Option<u32>) -> u32
    ensures { result ≡ amount_or none amount }
{
    amount.unwrap_or(none)
}

// The length of the longest file.
pub fn longest_file() -> usize
    ensures { result ≡ longest_file }
{
    LONGEST_FILE
}
