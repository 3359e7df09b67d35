//! The rules of executions on examples.
use execution::execute;
use faults::{ChartFault, Fault, LineFault};
use refusal::Refusal;
use row::RowFault;
use std::alloc::Global;
use std::process::Abort;
use std::test::Fail;

// A chart with so many inputs, and little more.
fn chart_of(heap: Global, inputs: u32) -> Result<Vec<u8>, Fail> {
    let mut chart = Vec::new(heap);
    for number in 0..inputs {
        let line = format!(in heap; "V,{number},i,0,0\n")?;
        chart.extend_from_slice(line.as_bytes())?;
    }
    chart.extend_from_slice(b"R,0,-\nS,0,0,i\n")?;
    Ok(chart)
}

fn check_output(
    rt: &impl Abort,
    heap: Global,
    inputs: u32,
    trace: &[u8],
    expected: &[u8],
) -> Result<(), Fail> {
    let chart = chart_of(heap, inputs)?;
    let output = execute(heap, Some(&chart), Some(trace))?;
    assert_eq!(rt; output.as_slice(), expected);
    Ok(())
}

#[test]
fn a_trace_comes_out_as_it_went_in(rt: HostRuntime) -> Result<(), Fail> {
    let traces = [
        (2, b"".as_slice()),
        (1, b"7\n"),
        (2, b"0,2\n1,0\n"),
        (0, b"\n\n"),
        (3, b"4294967295,0,1\n"),
    ];
    for (inputs, trace) in traces {
        check_output(&rt, rt.alloc(), inputs, trace, trace)?;
    }
    Ok(())
}

#[test]
fn a_refusal_ends_the_output(rt: HostRuntime) -> Result<(), Fail> {
    // the inputs, the trace, and what is written for it
    let cases = [
        (
            2,
            b"0,2\n1\n".as_slice(),
            b"0,2\nrefused,3,17,1,1\n".as_slice(),
        ),
        (1, b"1\n2,3\n4\n", b"1\nrefused,3,17,2,1\n"),
        (0, b"\n1\n", b"\nrefused,3,17,1,1\n"),
        (1, b"\n", b"refused,3,18,0,0\n"),
        (2, b"1,2\n3,\n", b"1,2\nrefused,3,18,1,1\n"),
        (1, b"007\n", b"refused,3,18,0,0\n"),
        (1, b"1\n4294967296\n", b"1\nrefused,3,18,0,1\n"),
        (1, b"1\n2", b"1\nrefused,3,16,0,1\n"),
    ];
    for (inputs, trace, expected) in cases {
        check_output(&rt, rt.alloc(), inputs, trace, expected)?;
    }
    Ok(())
}

#[test]
fn the_longest_trace(rt: HostRuntime) -> Result<(), Fail> {
    let mut trace = vec![in rt.alloc(); b'\n'; 32768]?;
    check_output(&rt, rt.alloc(), 0, &trace, &trace)?;
    trace.push(b'\n')?;
    check_output(&rt, rt.alloc(), 0, &trace, b"refused,5,27,1,0\n")
}

#[test]
fn a_row_of_64_inputs(rt: HostRuntime) -> Result<(), Fail> {
    let mut trace = Vec::new(rt.alloc());
    for _ in 0..63 {
        trace.extend_from_slice(b"4294967295,")?;
    }
    trace.extend_from_slice(b"4294967295\n")?;
    assert_eq!(rt; trace.len(), 704);
    check_output(&rt, rt.alloc(), 64, &trace, &trace)
}

#[test]
fn files_that_cannot_be_read(rt: HostRuntime) -> Result<(), Fail> {
    let heap = rt.alloc();
    let output = execute(heap, None, None)?;
    assert_eq!(rt; output.as_slice(), b"refused,5,27,0,0\n".as_slice());
    let chart = chart_of(heap, 1)?;
    let output = execute(heap, Some(&chart), None)?;
    assert_eq!(rt; output.as_slice(), b"refused,5,27,1,0\n".as_slice());
    Ok(())
}

#[test]
fn a_chart_is_refused_before_the_trace(rt: HostRuntime) -> Result<(), Fail> {
    let heap = rt.alloc();
    let cases = [
        (b"V,0,i,0,007\n".as_slice(), b"refused,1,3,0,0\n".as_slice()),
        (b"V,0,i,0,0", b"refused,2,1,0,0\n"),
        (b"", b"refused,2,7,0,0\n"),
        (b"V,0,i,4,0\n", b"refused,2,6,0,0\n"),
    ];
    for (chart, expected) in cases {
        let output = execute(heap, Some(chart), None)?;
        assert_eq!(rt; output.as_slice(), expected);
    }
    Ok(())
}

#[test]
fn faults_tell_their_layer_number_and_place(rt: HostRuntime) {
    let row: Fault = RowFault::FieldCount(3).into();
    assert!(rt; row.layer() == 3 && row.number() == 17 && row.place() == 3);
    let line: Fault = ChartFault::Line(LineFault::Limit(64)).into();
    assert!(rt; line.layer() == 1 && line.number() == 5 && line.place() == 64);
    let chart: Fault = ChartFault::Ring(2).into();
    assert!(rt; chart.layer() == 2 && chart.number() == 8 && chart.place() == 2);
    assert!(rt; Fault::ChartFile.layer() == 5 && Fault::ChartFile.place() == 0);
    let trace: Fault = trace::Fault::Trace.into();
    assert!(rt; trace.layer() == 5 && trace.number() == 27 && trace.place() == 1);
}
