// The text of a river's report, a line for each reach, and of its means, with a line for the river too; or the refusal.
#![tactic(auto)]

mod line;
pub mod means;
mod put;

ghost use Rattle.std.specs.Prelude.{◌*◌, ◌≤◌, length};
ghost use Rattle.io.specs.Counts.{IsPrefixLen};
ghost use Rattle.report.specs.Record.{record_bytes};
ghost use Rattle.report.specs.held.LineFigures.{figures_in};
ghost use Rattle.river.specs.Refusal.{number_of};
ghost use Rattle.river.specs.held.Cursors.{Room};
ghost use Rattle.text.specs.Text.{reach_line, lines_of, refusal_line, Renders};
ghost use Rattle.text.specs.MeanText.{RendersMeans};
ghost use Rattle.text.specs.held.Words.{longest_line, recorded, PutsWithin};

use line::{NUMBERS, number_count, numbers_of};
use means::{MEAN_NUMBERS, RIVER_LINE, put_means};
use put::{LONGEST_NUMBER, put_line, put_number, put_word};
use report::mean::MEAN_SIZE;
use report::record::{Line, RN_SIZE, RP_SIZE, read_record};
use report::reporting::Reported;
use report::{mean, reporting};
use river::bytes::Cursor;
use river::card::{LONGEST_FILE, REACHES};
use river::refusal::Refusal;

// One byte past the longest lawful file, so that a longer one is seen to be too long.
pub const FILE: usize = LONGEST_FILE + 1;

// The longest report: the records of 128 reaches, each of both kinds.
const REPORT: usize = REACHES * (RP_SIZE + RN_SIZE);

// Room for the longest text: 128 lines of twelve numbers.
pub const TEXT: usize = REACHES * NUMBERS * LONGEST_NUMBER;

// The means of 128 reaches.
const MEANS: usize = REACHES * MEAN_SIZE;

// Room for the longest text of means: 128 lines of two numbers, and the line of the river.
pub const MEANS_TEXT: usize = REACHES * MEAN_NUMBERS * LONGEST_NUMBER + RIVER_LINE;

// Puts the line of a reach with these figures, by whether its river has nitrification.
fn put_reach(text: &mut Cursor, nitrified: bool, reach: u32, line: Line)
    requires { Room text.old longest_line }
    ensures { PutsWithin longest_line (reach_line nitrified reach (figures_in line)) text.old text.new }
{
    let numbers = numbers_of(reach, line);
    let count = number_count(nitrified);
    put_line(text, &numbers[..count]);
}

// Puts the lines of the reaches of a report. That at most 128 are told stays a clause here and for means, as the contracts of both calls have it.
fn put_lines(text: &mut Cursor, report: &[u8], told: Reported)
    requires few { told.count ≤ 128 }
    requires records { record_bytes told.nitrified * told.count ≤ length report.now }
    requires room { Room text.old (longest_line * told.count) }
    ensures { PutsWithin (longest_line * told.count) (lines_of told.nitrified (recorded told.nitrified report.now) told.count) text.old text.new }
{
    for i in 0..told.count {
        let line = read_record(report, told.nitrified, i);
        put_reach(text, told.nitrified, i as u32 + 1, line);
    }
}

// Puts the line of a refusal.
fn put_refusal(text: &mut Cursor, refusal: Refusal)
    requires { Room text.old 56 }
    ensures { PutsWithin 56 (refusal_line (number_of refusal.rule) refusal.reach) text.old text.new }
{
    put_word(text, b"refused ");
    put_number(text, u64::from(refusal.rule.number()));
    put_word(text, b" reach ");
    put_number(text, u64::from(refusal.reach));
    put_word(text, b"\n");
}

// Puts the text for a river file at the start of a buffer, and returns its length.
pub fn render(file: &[u8], out: &mut [u8; TEXT]) -> usize
    ensures renders { Renders file.now out.old out.new result }
    ensures prefix_len { IsPrefixLen result out.new }
{
    let mut report = [0u8; REPORT];
    let mut text = Cursor { out, at: 0 };
    match reporting::report(file, &mut report) {
        Ok(told) => put_lines(&mut text, &report, told),
        Err(refusal) => put_refusal(&mut text, refusal),
    }
    text.at
}

// Puts the text of the means for a river file at the start of a buffer, and returns its length. It has the shape of `render`, with another buffer, call
// and contract, of which a function for both would be handed all three.
pub fn render_means(file: &[u8], out: &mut [u8; MEANS_TEXT]) -> usize
    ensures renders_means { RendersMeans file.now out.old out.new result }
    ensures prefix_len { IsPrefixLen result out.new }
{
    let mut means = [0u8; MEANS];
    let mut text = Cursor { out, at: 0 };
    match mean::mean(file, &mut means) {
        Ok(river) => put_means(
            &mut text,
            &means,
            river.count,
            u64::from(river.units),
            river.remainder,
        ),
        Err(refusal) => put_refusal(&mut text, refusal),
    }
    text.at
}
