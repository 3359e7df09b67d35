//! The output for a chart and a trace.
ghost use Rattle.std.specs.Prelude.{◌≡◌, ◌⊎◌, IfOk, Err, MatchResult, alloc_error};
ghost use Rattle.std.specs.Option.{option_copied};
ghost use Rattle.faults.specs.declared.charts.ChartFault.TheVariants.{Memory};
ghost use Rattle.structure.specs.Verdicts.{Asked};
ghost use Rattle.execution.specs.Output.{OutputEchoes, output, shipped_verdict, width_of};
ghost use Rattle.execution.specs.Stops.{Tells};
ghost use Rattle.trace.specs.Traces.{longest};

use crate::stops::Stop;
use faults::{ChartFault, Fault};
use joining::JoiningSet;
use std::alloc::{AllocError, Global};
use structure::Lines;
use trace::{Trace, execute_rows, refuse};

/// The bytes of the longest trace, which are as many as those of the longest chart: two rules with
/// one number.
pub const MOST_BYTES: usize = linefile::MOST_BYTES;

// The limit that is handed out is the one that `Trace::new` asks for. A constant has no clause, so
// it is said of this.
fn most_bytes() -> usize
    ensures { result ≡ longest }
{
    MOST_BYTES
}

// How many words each row of a trace has: one for each input of the chart.
fn chart_width(heap: Global, chart: &[u8]) -> Result<usize, ChartFault>
    ensures { Asked result (width_of (shipped_verdict chart.now)) }
{
    let mut lines = Lines::new(heap);
    lines.read(heap, chart, joining::shipped().count())?;
    Ok(lines.input_count())
}

// The rows of a trace, unless something stops them.
fn execute_files(heap: Global, chart: Option<&[u8]>, trace: Option<&[u8]>) -> Result<Vec<u8>, Stop>
    ensures { let written = output (option_copied chart.entry) (option_copied trace.entry) in
        MatchResult result (λ out. out.items ≡ written) (Tells written) }
{
    let width = chart_width(heap, chart.ok_or(Fault::ChartFile)?)?;
    let trace = Trace::new(trace)?;
    Ok(execute_rows(heap, width, &trace)?)
}

/// The output for a chart and a trace, either of which may be one that cannot be read.
#[tactic(auto, using(crate::proofs::Echo::echoes))]
pub fn execute(
    heap: Global,
    chart: Option<&[u8]>,
    trace: Option<&[u8]>,
) -> Result<Vec<u8>, AllocError>
    ensures value { IfOk result (λ out.
        out.items ≡ output (option_copied chart.entry) (option_copied trace.entry)) }
    ensures echo { IfOk result (λ out.
        OutputEchoes (option_copied chart.entry) (option_copied trace.entry) out.items) }
{
    match execute_files(heap, chart, trace) {
        Ok(out) => Ok(out),
        Err(Stop::Refused(fault)) => refuse(heap, fault),
        Err(Stop::Memory(short)) => Err(short),
    }
}
