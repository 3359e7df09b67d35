//! The program: reads the chart and the trace in its folder and prints the output for them.
#![tactic(auto)]

ghost use Rattle.std.specs.Prelude.{◌+◌, ◌≤◌, IfOk, vec_len};
ghost use Rattle.trace.specs.Traces.{longest};

use std::io;
use std::io::Write;
use std::rt::Files;

const CHART: &str = "chart.txt";

// Each program names its files and has its own limit: a program calls no other.
const TRACE: &str = "trace.txt";

// The bytes of a file, up to one more than a chart or a trace may have. `main` and the test read by
// it, so the program's own limit is what is tested.
fn read_file(rt: &(impl Files + AllocGlobal), path: &str) -> io::Result<Vec<u8>>
    ensures { IfOk result (λ bytes. vec_len bytes ≤ longest + 1) }
{
    files::read_file(rt, path, execution::MOST_BYTES)
}

fn main(rt: HostRuntime) -> io::Result<()> {
    let chart = read_file(&rt, CHART).ok();
    let trace = read_file(&rt, TRACE).ok();
    let output = execution::execute(rt.alloc(), chart.as_deref(), trace.as_deref())?;
    rt.stdout().write_all(&output)
}

#[cfg(test)]
mod tests {
    use super::*;
    use std::test::Fail;

    #[test]
    fn a_file_without_end_is_read_one_byte_past_the_limit(rt: HostRuntime) -> Result<(), Fail> {
        assert_eq!(rt; read_file(&rt, "/dev/zero")?.len(), 32769);
        Ok(())
    }
}
