// The bundle of cases that a test program reads on standard input: the length of a case in four bytes, high byte first, the case, and so on
// to the end. Bytes at the end that are no whole case are passed over.
#![tactic(auto)]

ghost use Rattle.std.specs.Prelude.{◌≡◌, length, MatchOption};
ghost use Rattle.std.specs.Iterator.{at_most};
ghost use Rattle.cases.specs.Cases.{BeginsWith, NoWholeCase};

use river::bytes::four_at;

// Room for a bundle.
pub const BUNDLE: usize = 65_536;

// The bytes of a case's length.
const LENGTH_BYTES: usize = 4;

// The cases in the rest of a bundle, one after another.
#[derive(Drop)]
pub struct Cases<'a> {
    pub rest: &'a [u8],
}

// The cases of a bundle.
pub fn cases_in(bundle: &[u8]) -> Cases<'_>
    ensures { result.rest.now ≡ bundle.now }
{
    Cases { rest: bundle }
}

impl<'a> Iterator for Cases<'a> {
    type Item = &'a [u8];

    ghost next_gives = { λ s r t. MatchOption r (NoWholeCase s.rest.now t.rest.now) (λ c. BeginsWith s.rest.now c.now t.rest.now) };

    ghost remaining = { λ s. at_most (length s.rest.now) };

    fn next(&mut self) -> Option<&'a [u8]> {
        let size = four_at(self.rest, 0) as usize;
        let (_, behind) = self.rest.split_at_checked(LENGTH_BYTES)?;
        let (first, others) = behind.split_at_checked(size)?;
        self.rest = others;
        Some(first)
    }
}
