//! Reading a row from a text.
ghost use Rattle.std.specs.Prelude.{◌≡◌, ◌≤◌, IfOk, length};
ghost use Rattle.row.specs.Reading.{read_row, width_at};
ghost use Rattle.row.specs.Rows.{most_words};
ghost use Rattle.row.specs.Trips.{Rewrites};

use crate::faults::RowFault;
use crate::limits::MOST_WORDS;
use crate::lines::Line;

// Reading, where the row handed in is not too wide.
fn read_into(text: &[u8], place: usize, row: &mut [u32]) -> Result<usize, RowFault>
    requires { length row.old ≤ most_words }
    ensures all { (result, row.new) ≡ read_row text.now place row.old }
    ensures again { IfOk result (λ end. Rewrites text.now place end row.new) }
{
    let line = Line::at(text, place).ok_or(RowFault::Unended)?;
    // fixed memory, since a row is read without a heap
    let mut memory = [0; MOST_WORDS];
    let words = &mut memory[..row.len()];
    line.parse(words)?;
    row.copy_from_slice(words);
    Ok(place + line.len() + 1)
}

// The place goes with the text and is no part of it: one past the end gets an answer, where a part
// would ask it of the caller.
/// Reads the row at a place into the row handed in: the place after its byte 10.
pub fn read(text: &[u8], place: usize, row: &mut [u32]) -> Result<usize, RowFault>
    ensures all { (result, row.new) ≡ read_row text.now place row.old }
    ensures again { IfOk result (λ end. Rewrites text.now place end row.new) }
{
    if row.len() > MOST_WORDS {
        return Err(RowFault::TooWide);
    }
    read_into(text, place, row)
}

/// How many words the row at a place has, 0 where there is none.
// No `Option`: a caller lends no words for a bare row and for none alike.
pub fn width(text: &[u8], place: usize) -> usize
    ensures { result ≡ width_at text.now place }
{
    match Line::at(text, place) {
        Some(line) => line.field_count(0),
        None => 0,
    }
}
