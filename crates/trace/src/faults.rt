//! What is refused of a trace.
ghost use Rattle.std.specs.Prelude.{◌≡◌};
ghost use Rattle.trace.specs.Faults.{layer_of, number_of, place_of};
ghost use Rattle.trace.specs.declared.faults.Fault.TheVariants.{Row};

use refusal::Refusal;
use row::RowFault;

/// Why an execution is refused, with the fault of the layer below.
#[derive(Clone, Copy, PartialEq, Eq, Debug)]
pub enum Fault {
    /// A row of the trace.
    Row(RowFault),
    /// The trace cannot be read, or is too long.
    Trace,
}

// By hand, as a derived `From` would not say which fault it makes.
impl From<RowFault> for Fault {
    ghost from_gives = { λ e r. r ≡ Row e };

    fn from(below: RowFault) -> Fault {
        Fault::Row(below)
    }
}

impl Refusal for Fault {
    ghost layer = { layer_of };

    ghost number = { number_of };

    ghost place = { place_of };

    fn layer(self) -> u32 {
        match self {
            Fault::Row(fault) => fault.layer(),
            Fault::Trace => 5,
        }
    }

    fn number(self) -> u32 {
        match self {
            Fault::Row(fault) => fault.number(),
            Fault::Trace => 27,
        }
    }

    fn place(self) -> u32 {
        match self {
            Fault::Row(fault) => fault.place(),
            Fault::Trace => 1,
        }
    }
}
