// The lines of a river's means: one for each reach, with its number and its mean, and one for the river.
ghost use Rattle.std.specs.Prelude.{◌≡◌, ◌++◌, ◌+◌, ◌*◌, ◌≤◌, length};
ghost use Rattle.flows.specs.held.Stored.{oxygen_of};
ghost use Rattle.river.specs.held.Cursors.{Room};
ghost use Rattle.report.specs.Mean.{mean_bytes, mean_read};
ghost use Rattle.text.specs.MeanText.{mean_line, mean_lines, river_line};
ghost use Rattle.text.specs.held.Words.{longest_mean_line, longest_river_line, mean_held, PutsWithin};

use crate::line::plain;
use crate::put::{put_line, put_number, put_signed, put_word};
use report::mean::MEAN_SIZE;
use report::record::complement;
use river::bytes::{Cursor, four_at};

// The numbers in the line of a reach.
pub const MEAN_NUMBERS: usize = 2;

// The bytes of the river's line at most: `river`, a sign, 20 digits twice, and what stands after each word.
pub const RIVER_LINE: usize = 49;

// The stored mean of the reach at place i, from the bytes of means.
pub fn read_mean(means: &[u8], i: usize) -> u32
    requires { mean_bytes * i ≤ length means.now }
    ensures { oxygen_of result ≡ mean_read means.now i }
{
    let from = MEAN_SIZE * i;
    complement(four_at(&means[from..], 0))
}

// Puts the line of a reach with this stored mean.
fn put_mean(text: &mut Cursor, reach: u32, mean: u32)
    requires { Room text.old longest_mean_line }
    ensures { PutsWithin longest_mean_line (mean_line reach (oxygen_of mean)) text.old text.new }
{
    let numbers = [plain(reach), u64::from(mean)];
    put_line(text, &numbers);
}

// Puts the lines of the first reaches, whose means stand in these bytes. `put_lines` has the same loop: one function for both would be handed the putting
// of a line as a closure, with a clause of its own, and be longer than the two.
fn put_mean_lines(text: &mut Cursor, means: &[u8], count: usize)
    requires few { count ≤ 128 }
    requires held { mean_bytes * count ≤ length means.now }
    requires room { Room text.old (longest_mean_line * count) }
    ensures { PutsWithin (longest_mean_line * count) (mean_lines (mean_held means.now) count) text.old text.new }
{
    for i in 0..count {
        put_mean(text, i as u32 + 1, read_mean(means, i));
    }
}

// Puts the line of the river, by its stored units and the remainder.
fn put_river(text: &mut Cursor, units: u64, remainder: u64)
    requires { Room text.old longest_river_line }
    ensures { PutsWithin longest_river_line (river_line (record { units = oxygen_of units; remainder = remainder })) text.old text.new }
{
    put_word(text, b"river ");
    put_signed(text, units);
    put_word(text, b" ");
    put_number(text, remainder);
    put_word(text, b"\n");
}

// Puts the lines of the first reaches, and that of the river.
pub fn put_means(text: &mut Cursor, means: &[u8], count: usize, units: u64, remainder: u64)
    requires few { count ≤ 128 }
    requires held { mean_bytes * count ≤ length means.now }
    requires room { Room text.old (longest_mean_line * count + longest_river_line) }
    ensures { PutsWithin (longest_mean_line * count + longest_river_line) (mean_lines (mean_held means.now) count ++ river_line (record { units = oxygen_of units; remainder = remainder })) text.old text.new }
{
    put_mean_lines(text, means, count);
    put_river(text, units, remainder);
}
