// The reader: it holds the file and how far it has read. A loop takes reach after reach from it, and each reach is read by the functions that
// take a slice and a position.
ghost use Rattle.std.specs.Prelude.{◌≡◌, drop};
ghost use Rattle.river.specs.Read.{read_reach};
ghost use Rattle.river.specs.held.Reader.{YieldsReach};

use crate::card::Card;
use crate::read::{Taken, read_reach};
use crate::refusal::Refusal;

// A file, and how far it has been read.
#[derive(Clone, Copy)]
pub struct Reader<'a> {
    pub file: &'a [u8],
    pub at: usize,
}

impl<'a> Reader<'a> {
    // A reader at the start of a file.
    pub fn new(file: &'a [u8]) -> Reader<'a>
        ensures { (result.file ≡ file.entry) × (result.at ≡ 0) }
    {
        Reader { file, at: 0 }
    }

    // The next reach, of so many, with the position behind it, or the refusal.
    pub fn next(self, count: u8, reach: u8) -> Result<Taken<Card>, Refusal>
        ensures { YieldsReach self.entry.at (read_reach count reach (drop self.entry.at self.entry.file.now)) result }
    {
        read_reach(self.file, self.at, count, reach)
    }

    // The reader, moved on to a position.
    pub fn moved(self, at: usize) -> Reader<'a>
        ensures { (result.file ≡ self.entry.file) × (result.at ≡ at) }
    {
        Reader {
            file: self.file,
            at,
        }
    }
}
