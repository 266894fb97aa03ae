// Prints flows, depths and heads of river files, and the refusals of the flow check, by the cases on standard input; the stored output is the
// reference program's. A case has the stored foot oxygen of the first reach and its step, in four bytes each, and the file.
#![tactic(auto)]

mod shown;

use cases::{BUNDLE, cases_in};
use printing::Out;
use river::bytes::{behind, four_at};
use shown::show;
use std::fmt;

// Places in a case.
const FIRST: usize = 0;

const STEP: usize = 4;

const FILE: usize = 8;

// Shows the cases of a bundle, one after another.
fn show_all(out: &mut Out, bundle: &[u8]) -> fmt::Result {
    for case in cases_in(bundle) {
        show(
            out,
            behind(case, FILE),
            four_at(case, FIRST),
            four_at(case, STEP),
        )?;
    }
    Ok(())
}

// What cannot be written is passed over, with status 0. Each program reads its bundle for itself: in `cases` the buffer would be lent to a closure for
// these lines.
fn main() {
    let mut bundle = [0u8; BUNDLE];
    // The reader of the runtime would rest on more of the C library than its read.
    let n = io::read_full(0, &mut bundle);
    let _ = show_all(&mut Out, &bundle[..n]);
}
