//! The line of a row.
ghost use Rattle.std.specs.Prelude.{◌≡◌, ◌+◌, ◌<◌, ◌≤◌, length, take, IfSome, Some, None, MatchOption};
ghost use Rattle.text.specs.Fields.{fields};
ghost use Rattle.row.specs.Reading.{field_words, fields_due, line_at, line_length, line_words, words_or};
ghost use Rattle.row.specs.Rows.{most_bytes, newline};
ghost use Rattle.text.specs.Parts.{position};

use crate::faults::RowFault;
use crate::limits::MOST_BYTES;
use std::marker::Model;
use text::{Fields, NEWLINE, parse_word};

/// The bytes of a row without its byte 10.
#[derive(Drop)]
pub(crate) struct Line<'a> {
    bytes: &'a [u8],
}

impl<'a> Model for Line<'a> {
    ghost use Rattle.std.specs.Prelude.{ℕ, ◌<◌, List, length};
    ghost use Rattle.row.specs.Rows.{most_bytes};

    ghost Value = { List ℕ };

    ghost view = { λ line. line.bytes.now };

    // byte 10 is among the next 704 bytes
    ghost invariant = { λ line. length line.bytes.now < most_bytes };
}

// How many bytes of a text stand before the first byte 10 among the first 704.
fn length_ahead(text: &[u8]) -> Option<usize>
    ensures value { result ≡ position newline (take most_bytes text.now) }
    ensures within { IfSome result (λ len. (len < most_bytes) × (len < length text.now)) }
{
    text.iter()
        .take(MOST_BYTES)
        .position(|byte| *byte == NEWLINE)
}

// How many bytes stand before the first byte 10 among the next 704. The bytes before the place are
// cut off, as `skip` would go over them one by one.
#[tactic(auto, using(crate::proofs::Places::none_past))]
fn line_length(text: &[u8], place: usize) -> Option<usize>
    ensures value { result ≡ line_length text.now place }
    ensures within { IfSome result (λ len. (len < most_bytes) × (place + len < length text.now)) }
{
    length_ahead(text.get(place..)?)
}

impl<'a> Line<'a> {
    // The line of the row at a place.
    pub(crate) fn at(text: &'a [u8], place: usize) -> Option<Line<'a>>
        ensures line { MatchOption result (line_at text.now place ≡ None) (λ line. line_at text.now place ≡ Some line) }
        ensures within { IfSome result (λ line. place + length line < length text.now) }
    {
        let len = line_length(text, place)?;
        Some(Line {
            bytes: &text[place..place + len],
        })
    }

    pub(crate) fn len(&self) -> usize
        ensures { result ≡ length self.now }
    {
        self.bytes.len()
    }

    fn count_fields(&self) -> usize
        ensures value { result ≡ length (fields self.now) }
        ensures bound { result ≤ most_bytes }
    {
        Fields::new(self.bytes, 0).count()
    }

    // How many fields the line has, where so many words are due.
    pub(crate) fn field_count(&self, due: usize) -> usize
        ensures value { result ≡ length (fields_due due self.now) }
        ensures bound { result ≤ most_bytes }
    {
        if due == 0 && self.bytes.is_empty() {
            return 0;
        }
        self.count_fields()
    }

    // The words of the fields, which are as many as the words that are lent.
    fn parse_fields(&self, words: &mut [u32]) -> Result<(), RowFault>
        requires { length (fields self.now) ≡ length words.old }
        ensures len { length words.new ≡ length words.old }
        ensures words { words_or result words.new ≡ field_words (fields self.now) }
    {
        // By number, since after a zip over `iter_mut` nothing is known of the words. A row has at
        // most 704 fields, so places and counts fit a word, and `try_from` would have an error that
        // cannot come.
        for (at, field) in Fields::new(self.bytes, 0).enumerate() {
            words[at] = parse_word(field.text).ok_or(RowFault::NoNumber(at as u32))?;
        }
        Ok(())
    }

    // The words, where as many are due as words are lent.
    pub(crate) fn parse(&self, words: &mut [u32]) -> Result<(), RowFault>
        ensures len { length words.new ≡ length words.old }
        ensures words { words_or result words.new ≡ line_words (length words.old) self.now }
    {
        let due = words.len();
        let found = self.field_count(due);
        if found != due {
            return Err(RowFault::FieldCount(found as u32));
        }
        if due == 0 {
            return Ok(());
        }
        self.parse_fields(words)
    }
}
