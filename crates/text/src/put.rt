// Words, numbers and lines put one behind the other in a buffer.
ghost use Rattle.std.specs.Prelude.{◌++◌, suc, ◌*◌, ◌<◌, length, drop};
ghost use Rattle.flows.specs.held.Stored.{oxygen_of};
ghost use Rattle.river.specs.held.Cursors.{Room};
ghost use Rattle.text.specs.Text.{number, signed, after_word, line};
ghost use Rattle.text.specs.held.Words.{word_at, words_of, PutsWithin};

use flows::head::STORED_ZERO_WIDE;
use river::bytes::Cursor;

// The bytes of a number in a line at most: 20 digits, a sign and what stands after the number.
pub const LONGEST_NUMBER: usize = 22;

// Puts a word.
pub fn put_word(text: &mut Cursor, word: &[u8])
    requires { Room text.old (length word.now) }
    ensures { PutsWithin (length word.now) word.now text.old text.new }
{
    text.bytes(word);
}

// Puts a number in decimal, by `io::decimal`: `Display` says what it writes only where it answers `Ok`, and `Renders` promises the text on
// every file.
pub fn put_number(text: &mut Cursor, n: u64)
    requires { Room text.old 20 }
    ensures { PutsWithin 20 (number n) text.old text.new }
{
    let mut digits = [0u8; 20];
    let count = io::decimal(n, &mut digits);
    put_word(text, &digits[..count]);
}

// Puts a stored number in decimal, with a minus sign below zero.
pub fn put_signed(text: &mut Cursor, stored: u64)
    requires { Room text.old 21 }
    ensures { PutsWithin 21 (signed (oxygen_of stored)) text.old text.new }
{
    if stored < STORED_ZERO_WIDE {
        put_word(text, b"-");
        put_number(text, STORED_ZERO_WIDE - stored);
    } else {
        put_number(text, stored - STORED_ZERO_WIDE);
    }
}

// Puts number i of a line, and what stands after it: one space, or the end of the line.
fn put_next(text: &mut Cursor, numbers: &[u64], i: usize)
    requires room { Room text.old 22 }
    requires in_line { i < length numbers.now }
    ensures { PutsWithin 22 (word_at numbers.now i ++ after_word (drop (suc i) (words_of numbers.now))) text.old text.new }
{
    put_signed(text, numbers[i]);
    if i + 1 < numbers.len() {
        put_word(text, b" ");
    } else {
        put_word(text, b"\n");
    }
}

// Puts a line of stored numbers. It goes by an index, since what stands after a number depends on whether one more follows: an iterator of the last and
// the others would put a number in two places.
pub fn put_line(text: &mut Cursor, numbers: &[u64])
    requires { Room text.old (22 * length numbers.now) }
    ensures { PutsWithin (22 * length numbers.now) (line (words_of numbers.now)) text.old text.new }
{
    for i in 0..numbers.len() {
        put_next(text, numbers, i);
    }
}
