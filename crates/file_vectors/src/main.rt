// Reads and writes river files by the cases on standard input and prints the answers; the stored output is the reference program's.
#![tactic(auto)]

mod given;
mod shown;

use cases::{BUNDLE, cases_in};
use given::{Kind, copied_in, count_in, factors_in, kind_in, read_in, river_in, room_in};
use printing::Out;
use river::card::longest_file;
use shown::{copied, show, wrote};
use std::fmt;
use std::fmt::Write;

// Shows a case. A case of another kind shows nothing.
fn show_case(out: &mut Out, case: &[u8]) -> fmt::Result {
    match kind_in(case) {
        Some(Kind::Read) => show(out, read_in(case)),
        Some(Kind::Write) => wrote(out, factors_in(case), river_in(case), room_in(case)),
        Some(Kind::Copy) => copied(out, factors_in(case), count_in(case), copied_in(case)),
        Some(Kind::Longest) => writeln!(out, "longest {}", longest_file()),
        None => Ok(()),
    }
}

// Shows the cases of a bundle, one after another.
fn show_all(out: &mut Out, bundle: &[u8]) -> fmt::Result {
    for case in cases_in(bundle) {
        show_case(out, case)?;
    }
    Ok(())
}

// What cannot be written is passed over, with status 0. Each program reads its bundle for itself: in `cases` the buffer would be lent to a closure for
// these lines.
fn main() {
    let mut bundle = [0u8; BUNDLE];
    // The reader of the runtime would rest on more of the C library than its read.
    let n = io::read_full(0, &mut bundle);
    let _ = show_all(&mut Out, &bundle[..n]);
}
