//! What is refused of a row.
ghost use Rattle.row.specs.Faults.{layer_of, number_of, place_of};

use refusal::Refusal;

/// Why a row is refused, with the place that the refusal tells.
#[derive(Clone, Copy, PartialEq, Eq, Debug)]
pub enum RowFault {
    /// The row handed in has more than 64 words.
    TooWide,
    /// No byte 10 is among the next 704 bytes.
    Unended,
    /// There are so many fields, which is not as many as words.
    FieldCount(u32),
    /// This field, counted from 0, is the first that is no number.
    NoNumber(u32),
    /// The text does not hold the row.
    NoRoom,
}

impl Refusal for RowFault {
    ghost layer = { layer_of };

    ghost number = { number_of };

    ghost place = { place_of };

    fn layer(self) -> u32 {
        3
    }

    fn number(self) -> u32 {
        match self {
            RowFault::TooWide => 15,
            RowFault::Unended => 16,
            RowFault::FieldCount(_) => 17,
            RowFault::NoNumber(_) => 18,
            RowFault::NoRoom => 19,
        }
    }

    fn place(self) -> u32 {
        match self {
            RowFault::FieldCount(found) => found,
            RowFault::NoNumber(at) => at,
            RowFault::TooWide | RowFault::Unended | RowFault::NoRoom => 0,
        }
    }
}
