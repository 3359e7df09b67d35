//! The rules on examples.
use joining::*;

#[test]
fn a_sum_stops_at_the_largest_word(rt: HostRuntime) {
    assert_eq!(rt; Sum.join(3, 5), 8);
    assert_eq!(rt; Sum.join(4_294_967_295, 1), 4_294_967_295);
}

#[test]
fn the_larger_word_and_the_bits_of_either(rt: HostRuntime) {
    assert_eq!(rt; Maximum.join(3, 5), 5);
    assert_eq!(rt; Union.join(5, 3), 7);
}

#[test]
fn shipped_joinings_go_by_their_numbers(rt: HostRuntime) {
    let set = shipped();
    assert_eq!(rt; set.count(), 3);
    assert_eq!(rt; set.join(1, 5, 3), 8);
    assert_eq!(rt; set.join(2, 3, 5), 5);
    assert_eq!(rt; set.join(3, 5, 3), 7);
}

#[test]
fn other_numbers_keep_the_first_word(rt: HostRuntime) {
    assert_eq!(rt; shipped().join(0, 3, 5), 3);
    assert_eq!(rt; shipped().join(4, 3, 5), 3);
}

#[test]
fn a_set_of_another_order_and_size(rt: HostRuntime) {
    let two = Also {
        set: Only(Union),
        last: Sum,
    };
    let four = Also {
        set: Also {
            set: two,
            last: Maximum,
        },
        last: Union,
    };
    assert_eq!(rt; four.count(), 4);
    assert_eq!(rt; four.join(1, 5, 3), 7);
    assert_eq!(rt; four.join(2, 5, 3), 8);
    assert_eq!(rt; four.join(3, 5, 3), 5);
    assert_eq!(rt; four.join(4, 5, 3), 7);
    assert_eq!(rt; four.join(5, 5, 3), 5);
}
