// Reporting of a river file, as the entry for C and the printing program call it.
ghost use Rattle.report.specs.held.Answers.{AnswersReport};

use crate::{lines, record};
use flows::{accept, flow};
use river::refusal::{Refusal, Rule};

// What reporting tells of an accepted river: how many reaches it has, and whether it has nitrification.
#[derive(Clone, Copy)]
pub struct Reported {
    pub count: usize,
    pub nitrified: bool,
}

// Puts the report of a river file at the start of a buffer, or answers a refusal, which writes nothing.
pub fn report(file: &[u8], report: &mut [u8]) -> Result<Reported, Refusal>
    ensures { AnswersReport file.now report.old report.new result }
{
    let river = accept::accept(file)?;
    let count = flow::reach_count(river.effective.count);
    let nitrified = record::has_nitrification(river.effective);
    let size = record::record_bytes(nitrified) * count;
    let short = report.len() < size;
    if short {
        return Err(Rule::BufferShort.at(0));
    }
    lines::report_all(river.effective, river.flows, nitrified, report);
    Ok(Reported { count, nitrified })
}
