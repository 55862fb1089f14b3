//! Tests of the texts of trees, of trimmed trees and of copies.

use crate::making::*;
use capn_value::{Memory, Tariff, Tree, Value, copy, cost, same, show, trim};
use std::alloc::Global;
use std::process::Abort;

/// Tests whether `tree` costs `words` and has the text `want`.
fn has_text(alloc: Global, tree: &Tree, words: u32, want: &str) -> bool {
    match show(alloc, tree) {
        Ok(text) => cost(tree, Tariff::Strict) == words && text.as_bytes() == want.as_bytes(),
        Err(_) => false,
    }
}

/// Tests whether `made`, which was made from `tree`, is the same value, costs `words`, and has the text `want`.
fn is_made(alloc: Global, tree: &Tree, made: Result<Tree, Memory>, words: u32, want: &str) -> bool {
    match made {
        Ok(made) => {
            let is_right = same(tree.value(), made.value()) && has_text(alloc, &made, words, want);
            drop(made);
            is_right
        }
        Err(_) => false,
    }
}

/// Checks that a value, its trimmed form and its copy are the same, cost `words`, and have the texts `want`, `cut` and
/// `want`.
fn expect_texts(rt: &impl Abort, alloc: Global, made: Made, words: u32, want: &str, cut: &str) {
    match tree(made) {
        Ok(tree) => {
            let is_shown = has_text(alloc, &tree, words, want);
            let is_trimmed = is_made(alloc, &tree, trim(alloc, &tree), words, cut);
            let is_copied = is_made(alloc, &tree, copy(alloc, &tree), words, want);
            drop(tree);
            assert!(rt; is_shown && is_trimmed && is_copied);
        }
        Err(_) => assert!(rt; false, "the value doesn't fit"),
    }
}

const ZERO_ROWS: &str =
    "struct 0 1\n  rows 2\n    struct 1 0\n      word 0000000000000000\n    struct 1 0\n      word 0000000000000000\n";

const EMPTY_ROWS: &str = "struct 0 1\n  rows 2\n    struct 0 0\n    struct 0 0\n";

const ROWS: &str =
    "struct 0 1\n  rows 2\n    struct 1 0\n      word 0000000000000007\n    struct 1 0\n      word 0000000000000000\n";

const EACH: &str =
    "struct 1 12\n  word 0000000000abcdef\n  null\n  void 3\n  bits 10\n    1011111111\n  \
    bits 0\n  bytes 3\n    616263\n  bytes 0\n  u16 3\n    65535\n    0\n    258\n  u32 2\n    4294967295\n    \
    16909060\n  u64 2\n    18446744073709551615\n    72623859790382856\n  pointers 2\n    capability 2\n    \
    null\n  rows 0\n  struct 0 0\n";

#[test]
fn texts(rt: HostRuntime) {
    let alloc = rt.alloc();
    // If all rows are zero, they are cut to rows without words, which cost a word each. If one is not zero, none is
    // cut.
    let zero = holder(alloc, two_rows(alloc, &[0], &[0]));
    expect_texts(&rt, alloc, zero, 6, ZERO_ROWS, EMPTY_ROWS);
    let rows = holder(alloc, two_rows(alloc, &[7], &[0]));
    expect_texts(&rt, alloc, rows, 6, ROWS, ROWS);
    // The struct costs 1 + 1 + 12. The lists without pointers cost 4, 2, 1, 2, 1, 2, 2 and 3, the pointers 3, the rows
    // 2, and the empty struct 1.
    let each = one_of_each(alloc, Value::Cap(2));
    expect_texts(&rt, alloc, each, 37, EACH, EACH);
}
