// The entries of the library for C callers, which include/xylandreo.h declares: each calls the entry of the same name and promises the same.
#![tactic(auto)]

ghost use Rattle.report.specs.Report.{Reports, TellsSize};
ghost use Rattle.report.specs.Rewrite.{Rewrites};
ghost use Rattle.report.specs.Mean.{Means};

// The report of a river file: 0, or the number and 256 times the reach of a refusal.
#[unsafe(no_mangle)]
pub extern "C" fn xylandreo_report(file: &[u8], report: &mut [u8]) -> u32
    ensures { Reports file.now report.old report.new result }
{
    report::xylandreo_report(file, report)
}

// How many bytes the records in the report of a river file have each, which is told with no flow check: 0 for a file that reading refuses.
#[unsafe(no_mangle)]
pub extern "C" fn xylandreo_record_size(file: &[u8]) -> u32
    ensures { TellsSize file.now result }
{
    report::xylandreo_record_size(file)
}

// A river file that is read and written back, with no flow check: 0, or the number and 256 times the reach of a refusal.
#[unsafe(no_mangle)]
pub extern "C" fn xylandreo_rewrite(file: &[u8], out: &mut [u8]) -> u32
    ensures { Rewrites file.now out.old out.new result }
{
    report::xylandreo_rewrite(file, out)
}

// Puts the mean oxygen of each reach of a river file in a lent buffer, and the mean of the river weighted by volume in two lent numbers, as whole units
// and a remainder: 0, or the number and 256 times the reach of a refusal, which touches neither the buffer nor the numbers.
#[unsafe(no_mangle)]
pub extern "C" fn xylandreo_mean(
    file: &[u8],
    means: &mut [u8],
    units: &mut i32,
    remainder: &mut u64,
) -> u32
    ensures { Means file.now means.old means.new units.old units.new remainder.old remainder.new result }
{
    report::xylandreo_mean(file, means, units, remainder)
}
