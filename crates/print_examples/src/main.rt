// Prints the report and the means for each river file of a bundle on standard input: the example rivers.
#![tactic(auto)]

use cases::{BUNDLE, cases_in};

// This and `print_means` differ in a call and in the size of its buffer; one function for both would take these two and what the call promises,
// and be longer than they are.
fn print_report(file: &[u8]) {
    let mut out = [0u8; text::TEXT];
    let length = text::render(file, &mut out);
    io::write_all(1, &out[..length]);
}

fn print_means(file: &[u8]) {
    let mut out = [0u8; text::MEANS_TEXT];
    let length = text::render_means(file, &mut out);
    io::write_all(1, &out[..length]);
}

fn show(file: &[u8]) {
    print_report(file);
    print_means(file);
}

fn main() {
    let mut bundle = [0u8; BUNDLE];
    // The reader of the runtime would rest on more of the C library than its read.
    let n = io::read_full(0, &mut bundle);
    for case in cases_in(&bundle[..n]) {
        show(case);
    }
}
