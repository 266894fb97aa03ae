// Prints the text for the river file on standard input: one line a reach, or the refusal.
#![tactic(auto)]

fn main() {
    let mut file = [0u8; text::FILE];
    // The reader of the runtime would rest on more of the C library than its read.
    let n = io::read_full(0, &mut file);
    let mut out = [0u8; text::TEXT];
    let length = text::render(&file[..n], &mut out);
    io::write_all(1, &out[..length]);
}
