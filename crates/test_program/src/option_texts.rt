//! Tests of option values that are read as numbers and ranges.

use capn_args::{numbers_of, ranges_in};
use capn_serve::Range;
use std::process::Abort;

#[test]
fn a_path_is_read_as_its_numbers(rt: HostRuntime) {
    let numbers = numbers_of(rt.alloc(), Some("0.31.7")).expect(&rt, "memory");
    assert!(rt; numbers.as_slice() == [0, 31, 7].as_slice());
    let none = numbers_of(rt.alloc(), None).expect(&rt, "memory");
    assert!(rt; none.is_empty());
}

#[test]
fn a_list_is_read_as_its_ranges(rt: HostRuntime) {
    let ranges = ranges_in(rt.alloc(), "3,9-12").expect(&rt, "memory");
    let want = [Range { from: 3, to: 3 }, Range { from: 9, to: 12 }];
    assert!(rt; ranges.as_slice() == want.as_slice());
}
