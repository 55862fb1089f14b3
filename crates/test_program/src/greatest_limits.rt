//! Tests of long lists of numbers and of the greatest limits. No run reports that an allocation was refused if there is
//! enough memory.

use crate::large_inputs::{is_ended, over};
use std::alloc::Global;
use std::test::Fail;

/// The frame of a struct of one word.
const STRUCT: [u8; 24] = [
    0, 0, 0, 0, 2, 0, 0, 0, 0, 0, 0, 0, 1, 0, 0, 0, 5, 0, 0, 0, 0, 0, 0, 0,
];

/// A list of 600 numbers is taken, and its first number picks the only message.
#[test]
fn a_list_of_many_numbers_is_taken(rt: HostRuntime) -> Result<(), Fail> {
    let mut list = String::from_str(rt.alloc(), "1")?;
    for number in 1..600u32 {
        let next = format!(in rt.alloc(); ",{}", 2 * number + 1)?;
        list.push_str(&next)?;
    }
    let words = ["capn", "pick", "--only", list.as_str()];
    assert!(rt; list.len() > 2_000);
    let ending = over(rt.alloc(), &words, &STRUCT);
    assert!(rt; is_ended(&ending, 0, &STRUCT, b""));
    Ok(())
}

/// Commands that read messages and take limits.
const LIMITED: [&str; 9] = [
    "check",
    "show",
    "hash",
    "canonical",
    "explain",
    "annotate",
    "limits",
    "uniq",
    "filter",
];

/// The greatest limit on the words of a message, and on the budget.
const MOST: &str = "268435456";

/// Tests whether a run ends with status 0, and writes something.
fn is_done(alloc: Global, words: &[&str]) -> bool {
    let ending = over(alloc, words, &STRUCT);
    ending.status == 0 && ending.line.as_slice().is_empty() && !ending.text.as_slice().is_empty()
}

/// Each limit may have its greatest value, even in a command line of eighteen words.
#[test]
fn each_limit_may_have_its_greatest_value(rt: HostRuntime) {
    for name in LIMITED {
        let words = [
            "capn",
            name,
            "--depth",
            "256",
            "--budget",
            MOST,
            "--message-words",
            MOST,
            "--tariff",
            "plain",
        ];
        assert!(rt; is_done(rt.alloc(), &words), "{name}");
    }
    let longest = [
        "capn",
        "show",
        "--form",
        "stream",
        "--message-words",
        MOST,
        "--budget",
        MOST,
        "--depth",
        "256",
        "--tariff",
        "plain",
        "--text",
        "--offsets",
        "--ways",
        "--one",
        "--at",
        "0",
    ];
    assert!(rt; is_done(rt.alloc(), &longest));
    let pick = [
        "capn",
        "pick",
        "--message-words",
        MOST,
        "--to",
        "18446744073709551615",
    ];
    assert!(rt; is_done(rt.alloc(), &pick));
}
