//! What keeps an execution from its rows.
ghost use Rattle.std.specs.Prelude.{◌≡◌};
ghost use Rattle.execution.specs.Stops.{StopsChart};
ghost use Rattle.execution.specs.declared.stops.Stop.TheVariants.{Refused, Memory};
ghost use Rattle.faults.specs.declared.outputs.Fault.TheVariants.{Trace};

use faults::{ChartFault, Fault};
use std::alloc::AllocError;

/// Why no rows are written: a refusal, which is an output too, or want of memory, which is none.
#[derive(Clone, Copy)]
pub(crate) enum Stop {
    Refused(Fault),
    Memory(AllocError),
}

// By hand, as a derived `From` would not say which fault it makes.
impl From<Fault> for Stop {
    ghost from_gives = { λ e r. r ≡ Refused e };

    fn from(fault: Fault) -> Stop {
        Stop::Refused(fault)
    }
}

impl From<trace::Fault> for Stop {
    ghost from_gives = { λ e r. r ≡ Refused (Trace e) };

    fn from(fault: trace::Fault) -> Stop {
        Stop::Refused(fault.into())
    }
}

impl From<AllocError> for Stop {
    ghost from_gives = { λ e r. r ≡ Memory e };

    fn from(short: AllocError) -> Stop {
        Stop::Memory(short)
    }
}

impl From<ChartFault> for Stop {
    ghost from_gives = { StopsChart };

    // A chart's want of memory is no fault of the chart.
    fn from(fault: ChartFault) -> Stop {
        match fault {
            ChartFault::Memory(short) => Stop::Memory(short),
            _ => Stop::Refused(fault.into()),
        }
    }
}
