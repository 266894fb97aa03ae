// The bench values of the river file paper that are not proved as rows, and a few more rivers, by the cases on standard input: the result of
// reporting on each file and, for accepted ones, figures of its reaches; how many bytes a reach has in the report of a file; and the result
// of asking for means, with those of the reaches and of the river. The cases are named in tests/bench_vectors.py, which makes the stored
// output too. More bench values of means are in tests/run_test.py.
#![tactic(auto)]

mod given;
mod shown;

use cases::{BUNDLE, cases_in};
use given::{Kind, kind_in, room_in};
use printing::Out;
use report::record::RP_SIZE;
use river::card::REACHES;
use shown::{show_means, show_report, show_size};
use std::fmt;

// The longest buffer of a case: that for the report on as many reaches as there may be.
const ROOM: usize = REACHES * RP_SIZE;

// Shows a case with as long a buffer as it asks for. A case of another kind shows nothing.
fn show(out: &mut Out, case: &[u8]) -> fmt::Result {
    let mut buffer = [1u8; ROOM];
    let room = room_in(case).min(ROOM);
    let lent = &mut buffer[..room];
    match kind_in(case) {
        Some(Kind::Report) => show_report(out, case, lent),
        Some(Kind::Size) => show_size(out, case),
        Some(Kind::Means) => show_means(out, case, lent),
        None => Ok(()),
    }
}

// Shows the cases of a bundle, one after another.
fn show_all(out: &mut Out, bundle: &[u8]) -> fmt::Result {
    for case in cases_in(bundle) {
        show(out, case)?;
    }
    Ok(())
}

// What cannot be written is passed over, with status 0. Each program reads its bundle for itself: in `cases` the buffer would be lent to a closure for
// these lines.
fn main() {
    let mut bundle = [0u8; BUNDLE];
    // The reader of the runtime would rest on more of the C library than its read.
    let n = io::read_full(0, &mut bundle);
    let _ = show_all(&mut Out, &bundle[..n]);
}
