// Results, figures of reaches and means, printed.
use crate::given::{file_in, has_status, most_off_in, name_in, shown_in};
use flows::head::{STORED_ZERO, signed};
use printing::{Out, Signed};
use report::mean::MEAN_SIZE;
use report::record::{Line, RP_SIZE, read_record, record_bytes};
use std::fmt;
use std::fmt::Write;
use text::means::read_mean;

// Stored oxygen as it is printed.
fn oxygen(stored: u32) -> Signed {
    Signed {
        value: signed(stored),
    }
}

// Prints a reach below its head, with nitrogenous BOD where its river has nitrification, and its status where that is asked for.
fn print_reach(out: &mut Out, line: Line, nitrified: bool, status: bool) -> fmt::Result {
    let foot = oxygen(line.foot_oxygen);
    let critical = oxygen(line.critical_oxygen);
    write!(
        out,
        "{} {foot} {} {critical}",
        line.foot_bod, line.critical_instant
    )?;
    if nitrified {
        write!(out, " {} {}", line.head_nitrogenous, line.foot_nitrogenous)?;
    }
    writeln!(out)?;
    if status {
        writeln!(out, "status {}", line.status)?;
    }
    Ok(())
}

// Prints the first reaches of a report.
fn print_first(
    out: &mut Out,
    report: &[u8],
    nitrified: bool,
    reaches: usize,
    status: bool,
) -> fmt::Result {
    for record in report.chunks_exact(record_bytes(nitrified)).take(reaches) {
        print_reach(out, read_record(record, nitrified, 0), nitrified, status)?;
    }
    Ok(())
}

// Prints the name of a case, whose bytes need not be text, which is why it goes past `Out`.
fn print_name(case: &[u8]) {
    io::write_all(1, name_in(case));
}

// Prints the name of a case and the result of its call.
fn print_result(out: &mut Out, case: &[u8], res: u32) -> fmt::Result {
    print_name(case);
    let number = report::refusal_number(res);
    let reach = report::refusal_reach(res);
    writeln!(out, ": {number} at {reach}")
}

// The errors together of a foot demand and foot oxygen, in a reach with one demand whose rate is that of surface aeration: 3,678,794 and
// 10,973,206 are due.
fn errors(demand: u32, oxygen: u32) -> u64 {
    u64::from(demand.abs_diff(3_678_794)) + u64::from(oxygen.abs_diff(STORED_ZERO + 10_973_206))
}

// Tells whether such a reach is off by at most so many units.
fn print_within(out: &mut Out, line: Line, nitrified: bool, most: u32) -> fmt::Result {
    let demand = if nitrified {
        line.foot_nitrogenous
    } else {
        line.foot_bod
    };
    if errors(demand, line.foot_oxygen) <= u64::from(most) {
        writeln!(out, "within {most}")?;
    }
    Ok(())
}

// Whether a file's river has nitrification.
fn is_nitrified(file: &[u8]) -> bool {
    RP_SIZE < report::xylandreo_record_size(file) as usize
}

// Reports on the file of a case into a buffer, and prints the result and the first reaches, and whether the first is off by few units where
// that is asked for.
pub fn show_report(out: &mut Out, case: &[u8], report: &mut [u8]) -> fmt::Result {
    let file = file_in(case);
    print_result(out, case, report::xylandreo_report(file, report))?;
    let nitrified = is_nitrified(file);
    print_first(out, report, nitrified, shown_in(case), has_status(case))?;
    let most = most_off_in(case);
    if 0 < most {
        print_within(out, read_record(report, nitrified, 0), nitrified, most)?;
    }
    Ok(())
}

// Prints how many bytes a reach has in the report of a case's file.
pub fn show_size(out: &mut Out, case: &[u8]) -> fmt::Result {
    print_name(case);
    let size = report::xylandreo_record_size(file_in(case));
    writeln!(out, ": {size} bytes")
}

// Prints the means of the first reaches, each on a line of its own.
fn print_means(out: &mut Out, means: &[u8], reaches: usize) -> fmt::Result {
    for mean in means.chunks_exact(MEAN_SIZE).take(reaches) {
        writeln!(out, "{}", oxygen(read_mean(mean, 0)))?;
    }
    Ok(())
}

// Asks for the means of a case's file, with numbers that start at 7 and 9, and prints the first reaches and the two numbers.
pub fn show_means(out: &mut Out, case: &[u8], means: &mut [u8]) -> fmt::Result {
    let mut units: i32 = 7;
    let mut remainder: u64 = 9;
    let result = report::xylandreo_mean(file_in(case), means, &mut units, &mut remainder);
    print_result(out, case, result)?;
    print_means(out, means, shown_in(case))?;
    let units = Signed { value: units };
    writeln!(out, "{units} {remainder}")
}
