//! Runs a table of cases: on each line of standard input a name, a chart and a trace, parted by
//! `;`, in which `/` stands for byte 10. For each it prints the name and the output, written so.
#![tactic(auto)]

ghost use Rattle.std.specs.Prelude.{◌≡◌, ◌==◌, if◌then◌else◌, IfOk, map};

use std::alloc::{AllocError, Global};
use std::io;
use std::io::{BufRead, BufReader, Write};
use text::NEWLINE;

const APART: u8 = b';';

const SHOWN: u8 = b'/';

// The bytes, with one byte for another.
fn with_byte(heap: Global, bytes: &[u8], old: u8, new: u8) -> Result<Vec<u8>, AllocError>
    ensures { IfOk result (λ changed.
        changed.items ≡ map (λ byte. if byte == old then new else byte) bytes.now) }
{
    bytes
        .iter()
        .map(|byte| if *byte == old { new } else { *byte })
        .collect(heap)
}

// A case, as its line writes it.
#[derive(Clone, Copy)]
struct Case<'a> {
    name: &'a [u8],
    chart: &'a [u8],
    trace: &'a [u8],
}

// The case of a line, if it is one.
fn parse_case(line: &[u8]) -> Option<Case> {
    let mut parts = line.splitn(3, |byte| *byte == APART);
    Some(Case {
        name: parts.next()?,
        chart: parts.next()?,
        trace: parts.next()?,
    })
}

// The output for a case. What it is made of is let go with it, before the case is shown.
fn execute_case(heap: Global, case: Case) -> Result<Vec<u8>, AllocError> {
    let chart = with_byte(heap, case.chart, SHOWN, NEWLINE)?;
    let trace = with_byte(heap, case.trace, SHOWN, NEWLINE)?;
    execution::execute(heap, Some(&chart), Some(&trace))
}

// What is printed for a case.
fn run_case(heap: Global, case: Case) -> Result<Vec<u8>, AllocError> {
    let output = execute_case(heap, case)?;
    let mut shown = case.name.to_vec(heap)?;
    shown.extend_from_slice(b": ")?;
    shown.extend_from_slice(&with_byte(heap, &output, NEWLINE, SHOWN)?)?;
    shown.push(NEWLINE)?;
    Ok(shown)
}

fn main(rt: HostRuntime) -> io::Result<()> {
    let mut out = rt.stdout();
    for line in BufReader::new(rt.alloc(), rt.stdin())?.lines(rt.alloc()) {
        if let Some(case) = parse_case(line?.as_bytes()) {
            out.write_all(&run_case(rt.alloc(), case)?)?;
        }
    }
    Ok(())
}
