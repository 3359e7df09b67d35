//! The rules of traces on examples. Tests of the same names in `chart_cases` are of its `execute`.
use row::RowFault;
use std::test::Fail;
use trace::*;

#[test]
fn a_trace_comes_out_as_it_went_in(rt: HostRuntime) -> Result<(), Fail> {
    let traces = [
        b"".as_slice(),
        b"7\n",
        b"0,2\n1,0\n",
        b"\n\n",
        b"4294967295,0,1\n",
    ];
    for trace in traces {
        let output = execute(rt.alloc(), Some(trace))?;
        assert_eq!(rt; output.as_slice(), trace);
    }
    Ok(())
}

#[test]
fn a_refusal_ends_the_output(rt: HostRuntime) -> Result<(), Fail> {
    // the trace, and what is written for it
    let cases = [
        (
            b"0,2\n1\n".as_slice(),
            b"0,2\nrefused,3,17,1,1\n".as_slice(),
        ),
        (b"1\n2,3\n4\n", b"1\nrefused,3,17,2,1\n"),
        (b"\n1\n", b"\nrefused,3,17,1,1\n"),
        (b"1\n\n", b"1\nrefused,3,18,0,1\n"),
        (b"1,2\n3,\n", b"1,2\nrefused,3,18,1,1\n"),
        (b"007\n", b"refused,3,18,0,0\n"),
        (b"1\n4294967296\n", b"1\nrefused,3,18,0,1\n"),
        (b"1\n2", b"1\nrefused,3,16,0,1\n"),
    ];
    for (trace, expected) in cases {
        let output = execute(rt.alloc(), Some(trace))?;
        assert_eq!(rt; output.as_slice(), expected);
    }
    Ok(())
}

#[test]
fn the_longest_trace(rt: HostRuntime) -> Result<(), Fail> {
    let longest = vec![in rt.alloc(); b'\n'; 32768]?;
    let output = execute(rt.alloc(), Some(&longest))?;
    assert_eq!(rt; output.as_slice(), longest.as_slice());
    Ok(())
}

#[test]
fn a_trace_that_is_too_long(rt: HostRuntime) -> Result<(), Fail> {
    let long = vec![in rt.alloc(); b'\n'; 32769]?;
    let output = execute(rt.alloc(), Some(&long))?;
    assert_eq!(rt; output.as_slice(), b"refused,5,27,1,0\n".as_slice());
    Ok(())
}

#[test]
fn a_trace_that_cannot_be_read(rt: HostRuntime) -> Result<(), Fail> {
    let output = execute(rt.alloc(), None)?;
    assert_eq!(rt; output.as_slice(), b"refused,5,27,1,0\n".as_slice());
    Ok(())
}

#[test]
fn a_row_of_65_words_is_too_wide(rt: HostRuntime) -> Result<(), Fail> {
    let mut trace = Vec::new(rt.alloc());
    for _ in 0..64 {
        trace.extend_from_slice(b"7,")?;
    }
    trace.extend_from_slice(b"7\n")?;
    let output = execute(rt.alloc(), Some(&trace))?;
    assert_eq!(rt; output.as_slice(), b"refused,3,15,0,0\n".as_slice());
    Ok(())
}

#[test]
fn a_width_may_be_another_than_the_first_row_has(rt: HostRuntime) -> Result<(), Fail> {
    let trace = Trace::new(Some(b"0,2\n1\n")).ok().ok_or("no trace")?;
    assert_eq!(rt; trace.width(), 2);
    let output = execute_rows(rt.alloc(), 2, &trace)?;
    assert_eq!(rt; output.as_slice(), b"0,2\nrefused,3,17,1,1\n".as_slice());
    let output = execute_rows(rt.alloc(), 1, &trace)?;
    assert_eq!(rt; output.as_slice(), b"refused,3,17,2,0\n".as_slice());
    Ok(())
}

#[test]
fn a_fault_ends_an_output_before_any_row(rt: HostRuntime) -> Result<(), Fail> {
    let output = refuse(rt.alloc(), RowFault::NoNumber(4))?;
    assert_eq!(rt; output.as_slice(), b"refused,3,18,4,0\n".as_slice());
    assert!(rt; Trace::new(None).is_err());
    Ok(())
}

#[test]
fn faults_tell_their_layer_number_and_place(rt: HostRuntime) {
    let row: Fault = RowFault::FieldCount(3).into();
    assert!(rt; row.layer() == 3 && row.number() == 17 && row.place() == 3);
    assert!(rt;
        Fault::Trace.layer() == 5 && Fault::Trace.number() == 27 && Fault::Trace.place() == 1
    );
}
