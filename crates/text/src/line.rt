// The numbers in the line of a reach. They are stored as oxygen is, with 2^31 added, so that none is below zero: of the elements of a slice a
// proof knows that each fits only where they are unsigned. Signed ones were tried, by an index, a `let` and a `for`.
ghost use Rattle.std.specs.Prelude.{◌≡◌, true, map, ◌≤◌, pos};
ghost use Rattle.flows.specs.held.Stored.{oxygen_of};
ghost use Rattle.report.specs.held.LineFigures.{figures_in};
ghost use Rattle.text.specs.Text.{numbers_of};
ghost use Rattle.text.specs.held.Words.{number_count};

use flows::head::STORED_ZERO_WIDE;
use report::record::Line;

// The numbers in a line, with nitrification and without.
pub const NUMBERS: usize = 12;

const PLAIN_NUMBERS: usize = 10;

// A number from zero on.
pub fn plain(n: u32) -> u64
    ensures { oxygen_of result ≡ pos n }
{
    STORED_ZERO_WIDE + u64::from(n)
}

// How many numbers the line of a reach has, by whether its river has nitrification.
pub fn number_count(nitrified: bool) -> usize
    ensures value { result ≡ number_count nitrified }
    ensures upper_bound { result ≤ 12 }
{
    if nitrified { NUMBERS } else { PLAIN_NUMBERS }
}

// The numbers in the line of a reach with these figures, where its river has nitrification; else the line has the first of them.
pub fn numbers_of(reach: u32, line: Line) -> [u64; NUMBERS]
    ensures { map oxygen_of result ≡ numbers_of true reach (figures_in line) }
{
    [
        plain(reach),
        plain(u32::from(line.depth)),
        plain(line.flow),
        plain(line.head_bod),
        plain(line.foot_bod),
        u64::from(line.head_oxygen),
        plain(u32::from(line.critical_instant)),
        u64::from(line.critical_oxygen),
        u64::from(line.foot_oxygen),
        plain(u32::from(line.status)),
        plain(line.head_nitrogenous),
        plain(line.foot_nitrogenous),
    ]
}
