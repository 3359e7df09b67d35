//! Writing a row into a text.
ghost use Rattle.std.specs.Prelude.{◌≡◌, ◌+◌, ◌≤◌, ◌∷◌, length, IfOk, Ok, decimal, sum_by};
ghost use Rattle.text.specs.Parts.{overwritten};
ghost use Rattle.row.specs.Rows.{most_words, row_bytes};
ghost use Rattle.row.specs.Trips.{Rereads};
ghost use Rattle.row.specs.Writing.{write_row};

use crate::faults::RowFault;
use crate::limits::MOST_WORDS;
use text::{COMMA, NEWLINE, word_len, write_word};

// That a row is not too wide is asked of each step here and kept in no type: the row is the
// caller's slice, and a type around it would be made anew for each call.

// The bytes of the words, each with the byte behind it.
fn spelled_len(row: &[u32]) -> usize
    requires { length row.now ≤ most_words }
    ensures { result ≡ sum_by (λ word. length (decimal word) + 1) row.now }
{
    row.iter().map(|word| word_len(*word) + 1).sum()
}

// How many bytes the row has: byte 10 alone for no word.
fn row_len(row: &[u32]) -> usize
    requires { length row.now ≤ most_words }
    ensures { result ≡ length (row_bytes row.now) }
{
    spelled_len(row).max(1)
}

// A word's digits, which have room: the place after them.
fn put_word(word: u32, text: &mut [u8], place: usize) -> usize
    requires { place + length (decimal word) ≤ length text.old }
    ensures place { result ≡ place + length (decimal word) }
    ensures text { text.new ≡ overwritten text.old place (decimal word) }
{
    write_word(word, text, place).unwrap()
}

// A row of one word or more, which has room: how many bytes it has.
fn put_words(first: u32, rest: &[u32], text: &mut [u8]) -> usize
    requires { length (row_bytes (first ∷ rest.now)) ≤ length text.old }
    ensures len { result ≡ length (row_bytes (first ∷ rest.now)) }
    ensures text { text.new ≡ overwritten text.old 0 (row_bytes (first ∷ rest.now)) }
{
    let mut place = put_word(first, text, 0);
    // `place` counts bytes and not words, and only the bytes written tell it
    for word in rest {
        text[place] = COMMA;
        place = put_word(*word, text, place + 1);
    }
    text[place] = NEWLINE;
    place + 1
}

// A row, which has room: how many bytes it has.
fn put_row(row: &[u32], text: &mut [u8]) -> usize
    requires { (length row.now ≤ most_words) × (length (row_bytes row.now) ≤ length text.old) }
    ensures all { (Ok result, text.new) ≡ write_row row.now text.old }
    ensures again { Rereads row.now text.new result }
{
    match row {
        [] => {
            text[0] = NEWLINE;
            1
        }
        [first, rest @ ..] => put_words(*first, rest, text),
    }
}

/// Writes the row at the front of the text: how many bytes it has.
pub fn write(row: &[u32], text: &mut [u8]) -> Result<usize, RowFault>
    ensures all { (result, text.new) ≡ write_row row.now text.old }
    ensures again { IfOk result (λ end. Rereads row.now text.new end) }
{
    if row.len() > MOST_WORDS {
        return Err(RowFault::TooWide);
    }
    if row_len(row) > text.len() {
        return Err(RowFault::NoRoom);
    }
    Ok(put_row(row, text))
}
