//! What ends an output early.
ghost use Rattle.std.specs.Prelude.{◌≡◌};
ghost use Rattle.faults.specs.OutputFaults.{layer_of, number_of, place_of};
ghost use Rattle.faults.specs.declared.outputs.Fault.TheVariants.{Chart, Trace};
ghost use Rattle.trace.specs.declared.faults.Fault.TheVariants.{Row};

use crate::charts::ChartFault;
use refusal::Refusal;
use row::RowFault;

/// Why an execution is refused, with the fault of the layer below.
#[derive(Clone, Copy, PartialEq, Eq, Debug)]
pub enum Fault {
    /// The chart, or a line of it.
    Chart(ChartFault),
    /// The file of the chart cannot be read.
    ChartFile,
    /// The trace, or a row of it.
    Trace(trace::Fault),
}

// By hand, as a derived `From` would not say which fault it makes.
impl From<ChartFault> for Fault {
    ghost from_gives = { λ e r. r ≡ Chart e };

    fn from(below: ChartFault) -> Fault {
        Fault::Chart(below)
    }
}

impl From<trace::Fault> for Fault {
    ghost from_gives = { λ e r. r ≡ Trace e };

    fn from(below: trace::Fault) -> Fault {
        Fault::Trace(below)
    }
}

impl From<RowFault> for Fault {
    ghost from_gives = { λ e r. r ≡ Trace (Row e) };

    fn from(below: RowFault) -> Fault {
        Fault::Trace(below.into())
    }
}

impl Refusal for Fault {
    ghost layer = { layer_of };

    ghost number = { number_of };

    ghost place = { place_of };

    fn layer(self) -> u32 {
        match self {
            Fault::Chart(fault) => fault.layer(),
            Fault::ChartFile => 5,
            Fault::Trace(fault) => fault.layer(),
        }
    }

    fn number(self) -> u32 {
        match self {
            Fault::Chart(fault) => fault.number(),
            Fault::ChartFile => 27,
            Fault::Trace(fault) => fault.number(),
        }
    }

    fn place(self) -> u32 {
        match self {
            Fault::Chart(fault) => fault.place(),
            Fault::ChartFile => 0,
            Fault::Trace(fault) => fault.place(),
        }
    }
}
