//! What is wrong with a line file.
ghost use Rattle.std.specs.Prelude.{◌≡◌, alloc_error};
ghost use Rattle.faults.specs.LineFaults.{layer_of, number_of, place_of};
ghost use Rattle.faults.specs.declared.lines.FileFault.TheVariants.{Line, Memory};

use refusal::Refusal;
use std::alloc::{AllocError, AllocFailed};

/// Why a line is refused, with the line, counted from 0.
#[derive(Clone, Copy, PartialEq, Eq, Debug)]
pub enum LineFault {
    /// It does not begin with a letter of the file and a comma, or a later letter stood before it.
    Letter(u32),
    /// It has not its letter's fields, each of its form.
    Fields(u32),
    /// Its number is not the count of earlier lines of its letter.
    Number(u32),
    /// Its number is not below its letter's limit.
    Limit(u32),
}

impl Refusal for LineFault {
    ghost layer = { layer_of };

    ghost number = { number_of };

    ghost place = { place_of };

    fn layer(self) -> u32 {
        1
    }

    fn number(self) -> u32 {
        match self {
            LineFault::Letter(_) => 2,
            LineFault::Fields(_) => 3,
            LineFault::Number(_) => 4,
            LineFault::Limit(_) => 5,
        }
    }

    fn place(self) -> u32 {
        match self {
            LineFault::Letter(line)
            | LineFault::Fields(line)
            | LineFault::Number(line)
            | LineFault::Limit(line) => line,
        }
    }
}

/// Why a line file is not read.
#[derive(Clone, Copy, PartialEq, Eq, Debug)]
pub enum FileFault {
    /// It has too many bytes, or the last is not byte 10.
    Bytes,
    /// A line of it.
    Line(LineFault),
    /// There is no memory for its lines.
    Memory(AllocError),
}

// By hand, as a derived `From` would not say which fault it makes.
impl From<LineFault> for FileFault {
    ghost from_gives = { λ e r. r ≡ Line e };

    fn from(below: LineFault) -> FileFault {
        FileFault::Line(below)
    }
}

impl<T: Drop> From<AllocFailed<T>> for FileFault {
    ghost from_gives = { λ _ r. r ≡ Memory alloc_error };

    fn from(refused: AllocFailed<T>) -> FileFault {
        FileFault::Memory(refused.into())
    }
}
