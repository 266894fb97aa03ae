// Standard output as the test programs print on it.
#![tactic(auto)]

ghost use Rattle.std.specs.Prelude.{Some};
ghost use Rattle.std.specs.Fmt.{signed_decimal};

use std::fmt;

// Standard output. Lines go through write alone, since the programs rest on the C library's read and write and on no other function of it. What cannot
// be written is passed over and the rest is tried, so that no write fails here.
#[derive(Drop)]
pub struct Out;

impl fmt::Write for Out {
    fn write_str(&mut self, s: &str) -> fmt::Result {
        io::write_all(1, s.as_bytes());
        Ok(())
    }
}

// A signed number as the test programs print it: a write for its sign, where it has one, and a write for its digits.
#[derive(Clone, Copy)]
pub struct Signed {
    pub value: i32,
}

impl fmt::Display for Signed {
    ghost output = { λ n. Some (signed_decimal n.value) };

    fn fmt<W: fmt::Write>(&self, f: &mut fmt::Formatter<W>) -> fmt::Result {
        let sign = if self.value < 0 { "-" } else { "" };
        write!(f, "{sign}{}", self.value.unsigned_abs())
    }
}
