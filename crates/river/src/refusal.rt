// A refusal, and the number that stands for it in a result.
ghost use Rattle.std.specs.Prelude.{◌≡◌, Some};
ghost use Rattle.river.specs.Refusal.{number_of, code_of, refuse, refusal_text};

use std::fmt;

// The rules of the paper, with its numbers.
#[derive(Clone, Copy, Debug, PartialEq, Eq)]
pub enum Rule {
    CutShort = 1,
    WrongMark = 2,
    ReachCount = 3,
    FieldRange = 4,
    WrongOutlet = 5,
    BytesLeft = 6,
    NoFlow = 7,
    FlowLimit = 8,
    DamFlow = 9,
    BodLimit = 10,
    RateLimit = 11,
    BufferShort = 12,
    TakeLimit = 13,
    BedLimit = 14,
    RateRange = 15,
    NoVolume = 16,
}

// The rule that is broken, and the reach it is about: 0 where it is about no reach.
#[derive(Clone, Copy, Debug, PartialEq, Eq)]
pub struct Refusal {
    pub rule: Rule,
    pub reach: u8,
}

impl Rule {
    // The paper's number of a rule. An enum has no conversion to its number but `as`.
    pub fn number(self) -> u8
        ensures { result ≡ number_of self }
    {
        self as u8
    }

    // The refusal of a rule at a reach.
    pub fn at(self, reach: u8) -> Refusal
        ensures { result ≡ refuse self reach }
    {
        Refusal { rule: self, reach }
    }
}

// The result code of a refusal.
impl From<Refusal> for u32 {
    ghost from_gives = { λ r n. n ≡ code_of r };

    fn from(r: Refusal) -> u32 {
        u32::from(r.rule.number()) + 256 * u32::from(r.reach)
    }
}

// A refusal as the programs print it.
impl fmt::Display for Refusal {
    ghost output = { λ r. Some (refusal_text r) };

    fn fmt<W: fmt::Write>(&self, f: &mut fmt::Formatter<W>) -> fmt::Result {
        write!(f, "refused {} reach {}", self.rule.number(), self.reach)
    }
}
