//! The lines of a text, read one after another as parts of the caller's text.
ghost use Rattle.std.specs.Prelude.{◌≡◌, ◌<◌, ◌∷◌, length};
ghost use Rattle.text.specs.Lines.{lines};

use crate::places::{NEWLINE, position};

// The first line of a text that has one, and what stands behind it.
fn cut_line(text: &[u8]) -> (&[u8], &[u8])
    requires { 0 < length text.now }
    ensures { lines text.now ≡ result.0.now ∷ lines result.1.now }
{
    match position(text, NEWLINE) {
        Some(place) => text.split_at(place + 1),
        None => (text, &[]),
    }
}

/// The lines of a text that are still to be read, each with its byte 10, which only the last may
/// lack.
#[derive(Clone, Copy)]
pub struct Lines<'a> {
    rest: &'a [u8],
}

impl<'a> Lines<'a> {
    ghost use Rattle.text.specs.Unread.{unread_lines};

    /// The lines of the text.
    pub fn new(text: &'a [u8]) -> Lines<'a>
        ensures { unread_lines result ≡ lines text.now }
    {
        Lines { rest: text }
    }
}

impl<'a> Iterator for Lines<'a> {
    ghost use Rattle.std.specs.Iterator.{YieldsFirstRef, item_count};
    ghost use Rattle.text.specs.Unread.{unread_lines};

    type Item = &'a [u8];

    ghost next_gives = { YieldsFirstRef unread_lines };

    ghost remaining = { item_count unread_lines };

    fn next(&mut self) -> Option<&'a [u8]> {
        if self.rest.is_empty() {
            return None;
        }
        let (line, rest) = cut_line(self.rest);
        self.rest = rest;
        Some(line)
    }
}
