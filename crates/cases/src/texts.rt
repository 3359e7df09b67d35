//! The rules of words and fields on examples.
use std::process::Abort;
use std::test::Fail;
use text::*;

#[test]
fn a_word_is_digits_without_a_leading_zero(rt: HostRuntime) {
    let cases = [
        ("0", Some(0)),
        ("7", Some(7)),
        ("4294967295", Some(4_294_967_295)),
        ("", None),
        ("007", None),
        ("00", None),
        ("4294967296", None),
        ("99999999999999999999", None),
        ("1a", None),
        ("+1", None),
        ("-1", None),
        (" 1", None),
    ];
    for (text, word) in cases {
        assert_eq!(rt; parse_word(text.as_bytes()), word, "{}", text);
    }
}

#[test]
fn a_word_has_one_digit_to_ten(rt: HostRuntime) {
    for (word, digits) in [(0, 1), (10, 2), (4_294_967_295, 10)] {
        assert_eq!(rt; word_len(word), digits);
    }
}

#[test]
fn a_word_is_written_where_it_fits(rt: HostRuntime) {
    let mut text = *b"abcdefghijklm";
    assert_eq!(rt; write_word(0, &mut text, 12), Some(13));
    assert_eq!(rt; write_word(10, &mut text, 0), Some(2));
    assert_eq!(rt; &text[..], b"10cdefghijkl0".as_slice());
    assert_eq!(rt; write_word(4_294_967_295, &mut text, 2), Some(12));
    assert_eq!(rt; &text[..], b"1042949672950".as_slice());
}

#[test]
fn a_word_that_does_not_fit_changes_nothing(rt: HostRuntime) {
    let mut text = *b"abcdefghi";
    assert_eq!(rt; write_word(4_294_967_295, &mut text, 0), None);
    assert_eq!(rt; write_word(10, &mut text, 8), None);
    assert_eq!(rt; write_word(0, &mut text, 9), None);
    assert_eq!(rt; write_word(0, &mut text, 10), None);
    assert_eq!(rt; &text[..], b"abcdefghi".as_slice());
}

// The next field is this part of the text, at this place.
fn check_next(rt: &impl Abort, fields: &mut Fields, text: &[u8], place: usize) -> Result<(), Fail> {
    let field = fields.next_field().ok_or("no field")?;
    assert_eq!(rt; field.text, text);
    assert_eq!(rt; field.place, place);
    Ok(())
}

#[test]
fn two_commas_part_three_fields(rt: HostRuntime) -> Result<(), Fail> {
    let mut fields = Fields::new(b"a,,bc", 0);
    check_next(&rt, &mut fields, b"a", 0)?;
    check_next(&rt, &mut fields, b"", 2)?;
    check_next(&rt, &mut fields, b"bc", 3)?;
    assert!(rt; fields.next_field().is_none());
    Ok(())
}

#[test]
fn a_line_without_a_comma_is_one_field(rt: HostRuntime) -> Result<(), Fail> {
    let mut empty = Fields::new(b"", 0);
    check_next(&rt, &mut empty, b"", 0)?;
    assert!(rt; empty.next_field().is_none());
    let mut late = Fields::new(b"a,bc", 2);
    check_next(&rt, &mut late, b"bc", 2)?;
    assert!(rt; late.next_field().is_none());
    Ok(())
}

#[test]
fn a_field_follows_the_last_comma(rt: HostRuntime) -> Result<(), Fail> {
    let mut fields = Fields::new(b"a,", 0);
    check_next(&rt, &mut fields, b"a", 0)?;
    check_next(&rt, &mut fields, b"", 2)?;
    assert!(rt; fields.next_field().is_none());
    Ok(())
}

#[test]
fn no_field_is_past_the_end(rt: HostRuntime) {
    assert!(rt; Fields::new(b"a,b", 4).next_field().is_none());
}

#[test]
fn fields_are_counted_and_numbered(rt: HostRuntime) {
    assert_eq!(rt; Fields::new(b"a,,bc", 0).count(), 3);
    for (number, field) in Fields::new(b"0,1,2", 0).enumerate() {
        assert_eq!(rt; field.place, 2 * number);
    }
}

#[test]
fn a_line_keeps_its_byte_10(rt: HostRuntime) {
    let mut lines = Lines::new(b"a\n\nbc");
    for expected in [b"a\n".as_slice(), b"\n", b"bc"] {
        assert_eq!(rt; lines.next(), Some(expected));
    }
    assert!(rt; lines.next().is_none());
    assert!(rt; Lines::new(b"").next().is_none());
}

#[test]
fn the_first_such_byte_at_or_after_a_place(rt: HostRuntime) {
    let cases = [
        (b'b', 0, Some(1)),
        (b'b', 1, Some(1)),
        (b'b', 2, Some(3)),
        (b'd', 0, None),
        (b'b', 4, None),
        (b'b', 5, None),
    ];
    for (byte, from, place) in cases {
        assert_eq!(rt; find(b"abcb", byte, from), place);
    }
}
