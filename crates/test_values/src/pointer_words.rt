//! Tests of the pointers that a layout writes.

use capn_layout::{bits_of, list_pointer, tag_word};
use capn_words::Width;

#[test]
fn the_pointer_to_a_list(rt: HostRuntime) {
    let near = list_pointer(0, 1, Width::W8, 3);
    let far = list_pointer(2, 7, Width::Rows, 4);
    assert!(rt; near == 0x1a_0000_0001 && far == 0x27_0000_0011);
}

/// The tag of no rows without words and slots is 0.
#[test]
fn the_tag_of_rows(rt: HostRuntime) {
    assert!(rt; tag_word(2, 1, 3) == 0x3_0001_0000_0008 && tag_word(0, 0, 0) == 0);
}

#[test]
fn the_bits_of_an_element(rt: HostRuntime) {
    let all = [
        bits_of(Width::W0),
        bits_of(Width::W1),
        bits_of(Width::W8),
        bits_of(Width::W16),
        bits_of(Width::W32),
        bits_of(Width::W64),
    ];
    assert!(rt; all == [0, 1, 8, 16, 32, 64]);
}
