//! The bytes of a trace.
ghost use Rattle.std.specs.Prelude.{◌≡◌, ℕ, ◌≤◌, List, length};
ghost use Rattle.std.specs.Option.{option_copied};
ghost use Rattle.row.specs.Reading.{width_at};
ghost use Rattle.trace.specs.Traces.{longest, trace_of};

use crate::faults::Fault;
use std::marker::Model;

/// The bytes of the longest trace. A line file has a limit of its own, which is the same number.
pub const MOST_BYTES: usize = 32768;

/// The bytes of a trace that could be read and is not too long.
#[derive(Drop)]
pub struct Trace<'a> {
    pub(crate) bytes: &'a [u8],
}

impl<'a> Model for Trace<'a> {
    ghost Value = { List ℕ };

    ghost view = { λ t. t.bytes.now };

    ghost invariant = { λ t. length t.bytes.now ≤ longest };
}

impl<'a> Trace<'a> {
    /// The trace of a file, of which there are no bytes where it could not be read.
    pub fn new(bytes: Option<&'a [u8]>) -> Result<Trace<'a>, Fault>
        ensures { result ≡ trace_of (option_copied bytes.entry) }
    {
        match bytes {
            Some(bytes) if bytes.len() <= MOST_BYTES => Ok(Trace { bytes }),
            _ => Err(Fault::Trace),
        }
    }

    /// How many words the first row has, 0 where there is none, as `row::width` says.
    pub fn width(&self) -> usize
        ensures { result ≡ width_at self.now 0 }
    {
        row::width(self.bytes, 0)
    }
}
