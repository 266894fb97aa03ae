// Reports of BOD and dissolved oxygen along the reaches of a river, and mean oxygen.
#![tactic(auto)]

pub mod along;
pub mod bed;
pub mod course;
pub mod lines;
pub mod mean;
pub mod profile;
pub mod reach;
pub mod record;
pub mod reporting;
pub mod status;
pub mod weights;

ghost use Rattle.std.specs.Prelude.{◌≡◌, ◌/◌, ◌%◌};
ghost use Rattle.report.specs.Call.{result_of};
ghost use Rattle.report.specs.Report.{Reports, TellsSize};
ghost use Rattle.report.specs.Rewrite.{Rewrites};
ghost use Rattle.report.specs.Mean.{Means};

use flows::head::signed;
use river::file::read_file;
use river::refusal::Refusal;
use river::rewrite;

// The number of the refusal in a result, which C has too.
pub fn refusal_number(res: u32) -> u32
    ensures { result ≡ res % 256 }
{
    res % 256
}

// The reach that the refusal in a result is about.
pub fn refusal_reach(res: u32) -> u32
    ensures { result ≡ res / 256 }
{
    res / 256
}

// The result of a call, by its answer.
#[tactic(auto, unfolding(crate::specs::Call::result_of))]
fn result_of<A: Drop>(answer: Result<A, Refusal>) -> u32
    ensures { result ≡ result_of answer }
{
    match answer {
        Ok(_) => 0,
        Err(refusal) => u32::from(refusal),
    }
}

// The report of a river file: 0, or the number and 256 times the reach of a refusal.
pub fn xylandreo_report(file: &[u8], report: &mut [u8]) -> u32
    ensures { Reports file.now report.old report.new result }
{
    result_of(reporting::report(file, report))
}

// How many bytes the records in the report of a river file have each, which is told with no flow check: 0 for a file that reading refuses.
pub fn xylandreo_record_size(file: &[u8]) -> u32
    ensures { TellsSize file.now result }
{
    let Ok(reading) = read_file(file) else {
        return 0;
    };
    record::record_size(reading.cards) as u32
}

// A river file that is read and written back, with no flow check: 0, or the number and 256 times the reach of a refusal.
pub fn xylandreo_rewrite(file: &[u8], out: &mut [u8]) -> u32
    ensures { Rewrites file.now out.old out.new result }
{
    result_of(rewrite::rewrite(file, out))
}

// Puts the mean oxygen of each reach of a river file in a lent buffer, and the mean of the river weighted by volume in two lent numbers, as whole units
// and a remainder: 0, or the number and 256 times the reach of a refusal, which touches neither the buffer nor the numbers.
pub fn xylandreo_mean(file: &[u8], means: &mut [u8], units: &mut i32, remainder: &mut u64) -> u32
    ensures { Means file.now means.old means.new units.old units.new remainder.old remainder.new result }
{
    match mean::mean(file, means) {
        Ok(river) => {
            *units = signed(river.units);
            *remainder = river.remainder;
            0
        }
        Err(refusal) => u32::from(refusal),
    }
}
