//! What is refused of a chart.
ghost use Rattle.std.specs.Prelude.{◌≡◌};
ghost use Rattle.faults.specs.ChartFaults.{chart_fault, layer_of, number_of, place_of};
ghost use Rattle.faults.specs.declared.charts.ChartFault.TheVariants.{Line, Memory};

use crate::lines::{FileFault, LineFault};
use refusal::Refusal;
use std::alloc::AllocError;

/// Why a chart is refused, with the line that the refusal tells, counted from 0.
#[derive(Clone, Copy, PartialEq, Eq, Debug)]
pub enum ChartFault {
    /// The file has more than 32,768 bytes, or does not end with byte 10.
    File,
    /// A line cannot be read.
    Line(LineFault),
    /// The line names a line that is not there, or a joining past the last.
    Names(u32),
    /// Not exactly one region has no parent.
    Roots,
    /// The region reaches itself through its parents.
    Ring(u32),
    /// The region has no initial state, or more than one.
    Initials(u32),
    /// The state's transitions out do not fit its kind and its regions.
    Exits(u32),
    /// The transition leaves its source's region.
    Crossing(u32),
    /// The effect may not write its variable so.
    Write(u32),
    /// No memory was found: no question got no.
    Memory(AllocError),
}

// By hand, as a derived `From` would not say which fault it makes.
impl From<LineFault> for ChartFault {
    ghost from_gives = { λ e r. r ≡ Line e };

    fn from(below: LineFault) -> ChartFault {
        ChartFault::Line(below)
    }
}

impl From<AllocError> for ChartFault {
    ghost from_gives = { λ e r. r ≡ Memory e };

    fn from(short: AllocError) -> ChartFault {
        ChartFault::Memory(short)
    }
}

impl From<FileFault> for ChartFault {
    ghost from_gives = { λ e r. r ≡ chart_fault e };

    fn from(below: FileFault) -> ChartFault {
        match below {
            FileFault::Bytes => ChartFault::File,
            FileFault::Line(fault) => fault.into(),
            FileFault::Memory(short) => short.into(),
        }
    }
}

impl Refusal for ChartFault {
    ghost layer = { layer_of };

    ghost number = { number_of };

    ghost place = { place_of };

    fn layer(self) -> u32 {
        match self {
            ChartFault::Line(fault) => fault.layer(),
            _ => 2,
        }
    }

    fn number(self) -> u32 {
        match self {
            ChartFault::File => 1,
            ChartFault::Line(fault) => fault.number(),
            ChartFault::Names(_) => 6,
            ChartFault::Roots => 7,
            ChartFault::Ring(_) => 8,
            ChartFault::Initials(_) => 9,
            ChartFault::Exits(_) => 10,
            ChartFault::Crossing(_) => 11,
            ChartFault::Write(_) => 12,
            ChartFault::Memory(_) => 0,
        }
    }

    fn place(self) -> u32 {
        match self {
            ChartFault::Line(fault) => fault.place(),
            ChartFault::Names(line)
            | ChartFault::Ring(line)
            | ChartFault::Initials(line)
            | ChartFault::Exits(line)
            | ChartFault::Crossing(line)
            | ChartFault::Write(line) => line,
            ChartFault::File | ChartFault::Roots | ChartFault::Memory(_) => 0,
        }
    }
}
