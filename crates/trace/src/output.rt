//! The output for a trace.
ghost use Rattle.std.specs.Prelude.{◌≡◌, ◌≤◌, [], ◌∷◌, ◌++◌, length, take, IfOk, OnOk};
ghost use Rattle.std.specs.Option.{option_copied};
ghost use Rattle.text.specs.Lines.{lines};
ghost use Rattle.row.specs.Rows.{most_bytes, most_words, row_bytes};
ghost use Rattle.trace.specs.Output.{Echoed, output, output_from};
ghost use Rattle.trace.specs.Refusals.{refusal};
ghost use Rattle.trace.specs.Traces.{longest};

use crate::bytes::Trace;
use crate::faults::Fault;
use refusal::Refusal;
use std::alloc::{AllocError, Global};

// The bytes of a row that is not too wide, written at the front of a text that holds the longest.
#[tactic(auto, using(crate::proofs::Writing::row_written))]
fn row_text<'a>(row: &[u32], text: &'a mut [u8]) -> &'a [u8]
    requires { (length row.now ≤ most_words) × (most_bytes ≤ length text.now) }
    ensures { result.now ≡ row_bytes row.now }
{
    let len = row::write(row, text).unwrap();
    &text[..len]
}

// One row more, which is not too wide. It is written in memory that is lent, as every row is: 704
// bytes hold any. That it is not too wide was asked by reading it.
fn append_row(out: &mut Vec<u8>, row: &[u32]) -> Result<(), AllocError>
    requires { length row.now ≤ most_words }
    ensures { OnOk result (out.new.items ≡ out.old.items ++ row_bytes row.now) }
{
    let mut text = [0; row::MOST_BYTES];
    out.extend_from_slice(row_text(row, &mut text))
}

// The words of a refusal's line.
fn refusal_row<F: Refusal>(fault: F, rows: u32) -> [u32; 4]
    ensures { result ≡ F.layer fault ∷ F.number fault ∷ F.place fault ∷ rows ∷ [] }
{
    [fault.layer(), fault.number(), fault.place(), rows]
}

// The line of a refusal, with the rows accepted before. Its four numbers are a row like any other
// and are written as one: `Display` would be a second way to write a row.
#[tactic(auto, unfolding(crate::specs::Refusals::refusal))]
fn append_refusal<F: Refusal>(out: &mut Vec<u8>, fault: F, rows: u32) -> Result<(), AllocError>
    ensures { let line = refusal (F.layer fault) (F.number fault) (F.place fault) rows in
        OnOk result (out.new.items ≡ out.old.items ++ line) }
{
    out.extend_from_slice(b"refused,")?;
    append_row(out, &refusal_row(fault, rows))
}

// The rows of a trace that is not too long, each read and written, up to the first that is refused.
// Each is read where it stands, which looks at 704 bytes at most: `Lines` would first look for the
// end of a line that has none, and for that of every line twice.
fn append_rows(trace: &[u8], row: &mut [u32], out: &mut Vec<u8>) -> Result<(), AllocError>
    requires { length trace.now ≤ longest }
    ensures { let output = output_from (length row.old) 0 (lines trace.now) in
        OnOk result (out.new.items ≡ out.old.items ++ output) }
{
    let mut place = 0;
    let mut rows = 0;
    while place < trace.len() {
        match row::read(trace, place, row) {
            Ok(end) => {
                append_row(out, row)?;
                place = end;
                rows += 1;
            }
            Err(fault) => return append_refusal(out, Fault::from(fault), rows),
        }
    }
    Ok(())
}

/// The output for a trace whose rows have so many words.
pub fn execute_rows(heap: Global, width: usize, trace: &Trace) -> Result<Vec<u8>, AllocError>
    ensures { IfOk result (λ out. out.items ≡ output_from width 0 (lines trace.now)) }
{
    let mut row = vec![in heap; 0; width]?;
    let mut out = Vec::new(heap);
    append_rows(trace.bytes, &mut row, &mut out)?;
    Ok(out)
}

/// An output that is refused before any row.
pub fn refuse<F: Refusal>(heap: Global, fault: F) -> Result<Vec<u8>, AllocError>
    ensures { let line = refusal (F.layer fault) (F.number fault) (F.place fault) 0 in
        IfOk result (λ out. out.items ≡ line) }
{
    let mut out = Vec::new(heap);
    append_refusal(&mut out, fault, 0)?;
    Ok(out)
}

/// The output for a trace, or for one that cannot be read.
#[tactic(auto, using(crate::proofs::Echo::echoes))]
pub fn execute(heap: Global, trace: Option<&[u8]>) -> Result<Vec<u8>, AllocError>
    ensures value { IfOk result (λ out. out.items ≡ output (option_copied trace.entry)) }
    ensures echo { IfOk result (λ out. Echoed (option_copied trace.entry) out.items) }
{
    match Trace::new(trace) {
        Ok(trace) => execute_rows(heap, trace.width(), &trace),
        Err(fault) => refuse(heap, fault),
    }
}
