//! Where a byte stands in a text.
ghost use Rattle.std.specs.Prelude.{◌≡◌, MatchOption};
ghost use Rattle.text.specs.Parts.{Absent, First, first_from, position};

/// The byte that ends a line.
pub const NEWLINE: u8 = b'\n';

// How many bytes stand before the first such byte.
pub(crate) fn position(text: &[u8], byte: u8) -> Option<usize>
    ensures { result ≡ position byte text.now }
{
    text.iter().position(|b| *b == byte)
}

// The place, without the law above it.
fn first_place(text: &[u8], byte: u8, from: usize) -> Option<usize>
    ensures { result ≡ first_from byte text.now from }
{
    let at = position(text.get(from..)?, byte)?;
    Some(from + at)
}

/// The place of the first such byte at or after `from`.
pub fn find(text: &[u8], byte: u8, from: usize) -> Option<usize>
    ensures value { result ≡ first_from byte text.now from }
    ensures first { MatchOption result (Absent byte text.now from) (λ at. First byte text.now from at) }
{
    first_place(text, byte, from)
}
