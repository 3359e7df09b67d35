//! The rules of rows on examples.
use refusal::Refusal;
use row::*;
use std::process::Abort;

// A row of 64 words of ten digits, at the place 1200 of a long text.
fn long_text() -> [u8; 2000] {
    let word = *b"4294967295,";
    let mut text = [b'\n'; 2000];
    for (byte, digit) in text[1200..1903].iter_mut().zip(word.iter().cycle()) {
        *byte = *digit;
    }
    text
}

// Reading two words is refused, and leaves them as they were.
fn check_refused(rt: &impl Abort, text: &[u8], place: usize, fault: RowFault) {
    let mut row = [5, 6];
    assert_eq!(rt; read(text, place, &mut row), Err(fault));
    assert_eq!(rt; row, [5, 6]);
}

#[test]
fn a_row_is_read_from_its_place(rt: HostRuntime) {
    let mut row = [5, 6];
    assert_eq!(rt; read(b"0,2\n", 0, &mut row), Ok(4));
    assert_eq!(rt; row, [0, 2]);
    assert_eq!(rt; read(b"9,9\n7,4294967295\n8", 4, &mut row), Ok(17));
    assert_eq!(rt; row, [7, 4_294_967_295]);
}

#[test]
fn a_bare_row_has_one_field_or_none(rt: HostRuntime) {
    assert_eq!(rt; read(b"ab\n", 2, &mut []), Ok(3));
    assert_eq!(rt; read(b"1\n", 0, &mut []), Err(RowFault::FieldCount(1)));
    assert_eq!(rt; read(b"\n", 0, &mut [5]), Err(RowFault::NoNumber(0)));
    check_refused(&rt, b"\n", 0, RowFault::FieldCount(1));
}

#[test]
fn reading_refuses_in_order(rt: HostRuntime) {
    assert_eq!(rt; read(b"", 0, &mut [0; 65]), Err(RowFault::TooWide));
    let cases = [
        (b"".as_slice(), 0, RowFault::Unended),
        (b"1,2", 0, RowFault::Unended),
        (b"1,2\n", 4, RowFault::Unended),
        (b"1,2\n", 5, RowFault::Unended),
        (b"x\n", 0, RowFault::FieldCount(1)),
        (b"1,2,\n", 0, RowFault::FieldCount(3)),
        (b",\n", 0, RowFault::NoNumber(0)),
        (b"1,\n", 0, RowFault::NoNumber(1)),
        (b"4294967296,1\n", 0, RowFault::NoNumber(0)),
        (b"0,007\n", 0, RowFault::NoNumber(1)),
    ];
    for (text, place, fault) in cases {
        check_refused(&rt, text, place, fault);
    }
}

#[test]
fn a_row_ends_within_704_bytes(rt: HostRuntime) {
    let mut text = [b'7'; 1000];
    text[803] = b'\n';
    assert_eq!(rt; read(&text, 100, &mut [5]), Err(RowFault::NoNumber(0)));
    assert_eq!(rt; read(&text, 99, &mut [5]), Err(RowFault::Unended));
}

#[test]
fn a_full_row_is_read_late_in_a_text(rt: HostRuntime) {
    let mut row = [0; 64];
    assert_eq!(rt; read(&long_text(), 1200, &mut row), Ok(1904));
    assert_eq!(rt; row, [4_294_967_295; 64]);
}

#[test]
fn a_full_row_is_written(rt: HostRuntime) {
    let mut text = [b'x'; 705];
    assert_eq!(rt; write(&[4_294_967_295; 64], &mut text), Ok(704));
    assert!(rt; text[0..704] == long_text()[1200..1904]);
    assert_eq!(rt; text[704], b'x');
    assert_eq!(rt; write(&[0; 65], &mut text), Err(RowFault::TooWide));
    assert_eq!(rt; text[0], b'4');
}

#[test]
fn a_row_is_written_where_it_fits(rt: HostRuntime) {
    let mut text = *b"abcdef";
    assert_eq!(rt; write(&[10, 2], &mut text), Ok(5));
    assert_eq!(rt; &text[..], b"10,2\nf".as_slice());
    assert_eq!(rt; write(&[], &mut text), Ok(1));
    assert_eq!(rt; &text[..], b"\n0,2\nf".as_slice());
}

#[test]
fn writing_without_room_changes_nothing(rt: HostRuntime) {
    let mut text = *b"abcd";
    assert_eq!(rt; write(&[10, 2], &mut text), Err(RowFault::NoRoom));
    assert_eq!(rt; &text[..], b"abcd".as_slice());
    assert_eq!(rt; write(&[], &mut []), Err(RowFault::NoRoom));
    assert_eq!(rt; write(&[0; 65], &mut []), Err(RowFault::TooWide));
}

#[test]
fn the_width_is_the_count_of_fields(rt: HostRuntime) {
    let cases = [
        (b"\n".as_slice(), 0, 0),
        (b"1\n", 0, 1),
        (b"1,2\n", 0, 2),
        (b"1\n,x,\n", 2, 3),
        (b"1,2", 0, 0),
        (b"1,2\n", 4, 0),
        (b"1,2\n", 5, 0),
    ];
    for (text, place, count) in cases {
        assert_eq!(rt; width(text, place), count);
    }
}

#[test]
fn a_refusal_has_a_number_and_a_place(rt: HostRuntime) {
    let faults = [
        (RowFault::TooWide, 15, 0),
        (RowFault::Unended, 16, 0),
        (RowFault::FieldCount(3), 17, 3),
        (RowFault::NoNumber(2), 18, 2),
        (RowFault::NoRoom, 19, 0),
    ];
    for (fault, number, place) in faults {
        assert_eq!(rt; fault.number(), number);
        assert_eq!(rt; fault.place(), place);
    }
}
