//! Tests of the whole explanations of messages that walks refuse.

use crate::words::bytes_of;
use capn_diagnostics::explain_stop;
use capn_stream::first;
use capn_walk::{Limits, survey};
use capn_words::{Bare, MOST_MESSAGE_WORDS};
use std::alloc::Global;
use std::test::Fail;

/// A struct whose second slot has two rows of a word and a slot. The last of these slots points out of its segment.
const ROWS: [u64; 8] = [
    0x2_0000_0000_0000,
    0,
    0x27_0000_0001,
    0x1_0001_0000_0008,
    5,
    0,
    6,
    0x1_0000_0014,
];

/// The lines that explain `ROWS`, as the fifth message of a stream.
const ROWS_TOLD: &str = "message: 5 at 1000\n\
segments: 1 of 8 words\n\
refused: Range at 0:7, paid 9, visits 5\n\
way: 1.1.0\n\
slot: byte 1064, segment 0 word 7: 1400000001000000: struct of 1 words and 0 slots, offset 5\n\
in: row 1 of 2 at byte 1056\n\
content: words 13 to 14 of segment 0, which has 8\n";

/// A struct whose slot has two rows of a slot each. The last of these slots points to a list with more rows than its
/// words have room for.
const MANY: [u64; 9] = [
    0x1_0000_0000_0000,
    0x17_0000_0001,
    0x1_0000_0000_0008,
    0,
    0x1f_0000_0001,
    0x2_0000_0008,
    1,
    2,
    3,
];

/// The lines that explain `MANY`, as the second message of a stream.
const MANY_TOLD: &str = "message: 2 at 16\n\
segments: 1 of 9 words\n\
refused: TagOverrun at 0:4, paid 6, visits 4\n\
way: 0.1.0\n\
slot: byte 56, segment 0 word 4: 010000001f000000: list of structs in 3 words, offset 0\n\
in: row 1 of 2 at byte 56\n\
tag: byte 64, segment 0 word 5: 0800000002000000: tag of 2 structs of 2 words and 0 slots\n\
content: words 5 to 9 of segment 0, which has 9\n\
rows: 2 of 2 words each: 4 of the list's 3\n";

/// Bare messages that are refused, each with the lines that explain it.
const BARE: [(&[u64], &str); 9] = [
    (
        &[],
        "message: 1 at 0\nsegments: 1 of 0 words\nrefused: NoRoot at 0:0, paid 0, visits 0\n",
    ),
    // A capability at the root.
    (
        &[0x7_0000_0003],
        "message: 1 at 0\n\
segments: 1 of 1 words\n\
refused: RootKind at 0:0, paid 0, visits 1\n\
way: root\n\
slot: byte 0, segment 0 word 0: 0300000007000000: capability 7\n",
    ),
    // A struct whose slot has three pointers, the last of which is reserved.
    (
        &[0x1_0000_0000_0000, 0x1e_0000_0001, 0, 0, 7],
        "message: 1 at 0\n\
segments: 1 of 5 words\n\
refused: Reserved at 0:4, paid 6, visits 5\n\
way: 0.2\n\
slot: byte 32, segment 0 word 4: 0700000000000000: reserved\n\
in: list of 3 pointers at byte 16\n",
    ),
    // A far pointer to a missing segment.
    (
        &[0x1_0000_0012],
        "message: 1 at 0\n\
segments: 1 of 1 words\n\
refused: NoSegment at 0:0, paid 0, visits 1\n\
way: root\n\
slot: byte 0, segment 0 word 0: 1200000001000000: far to segment 1 word 2\n\
limit: 1 segments\n",
    ),
    // A struct of a word and a slot that points to a landing pad of two words beyond its segment.
    (
        &[0x1_0001_0000_0000, 9, 0x2e],
        "message: 1 at 0\n\
segments: 1 of 3 words\n\
refused: PadRange at 0:2, paid 3, visits 2\n\
way: 0\n\
slot: byte 16, segment 0 word 2: 2e00000000000000: double far to segment 0 word 5\n\
in: struct of 1 words and 1 slots at byte 8\n\
content: words 5 to 7 of segment 0, which has 3\n",
    ),
    // A far pointer to a far pointer.
    (
        &[0xa, 0x1a],
        "message: 1 at 0\n\
segments: 1 of 2 words\n\
refused: BadPad at 0:0, paid 0, visits 1\n\
way: root\n\
slot: byte 0, segment 0 word 0: 0a00000000000000: far to segment 0 word 1\n\
pad: byte 8, segment 0 word 1: 1a00000000000000: far to segment 0 word 3\n",
    ),
    // A struct of a word that would begin before its segment.
    (
        &[0x1_ffff_fff8],
        "message: 1 at 0\n\
segments: 1 of 1 words\n\
refused: Range at 0:0, paid 0, visits 1\n\
way: root\n\
slot: byte 0, segment 0 word 0: f8ffffff01000000: struct of 1 words and 0 slots, offset -2\n\
content: words -1 to 0 of segment 0, which has 1\n",
    ),
    // A list of structs whose tag word is a pointer to a list.
    (
        &[0xf_0000_0001, 1, 0],
        "message: 1 at 0\n\
segments: 1 of 3 words\n\
refused: BadTag at 0:0, paid 0, visits 1\n\
way: root\n\
slot: byte 0, segment 0 word 0: 010000000f000000: list of structs in 1 words, offset 0\n\
tag: byte 8, segment 0 word 1: 0100000000000000: list of 0 voids, offset 0\n",
    ),
    // A list of structs that has one word after its tag word, which counts one struct of two words.
    (
        &[0xf_0000_0001, 0x2_0000_0004, 0],
        "message: 1 at 0\n\
segments: 1 of 3 words\n\
refused: TagOverrun at 0:0, paid 0, visits 1\n\
way: root\n\
slot: byte 0, segment 0 word 0: 010000000f000000: list of structs in 1 words, offset 0\n\
tag: byte 8, segment 0 word 1: 0400000002000000: tag of 1 structs of 2 words and 0 slots\n\
content: words 1 to 3 of segment 0, which has 3\n\
rows: 1 of 2 words each: 2 of the list's 1\n",
    ),
];

/// A struct whose two slots point to the same struct. The slot of that struct points to a struct of one word.
const SHARED: [u64; 5] = [
    0x2_0000_0000_0000,
    0x1_0000_0000_0004,
    0x1_0000_0000_0000,
    0x1_0000_0000,
    9,
];

/// The lines that explain `SHARED` with a budget of ten words.
const SHARED_TOLD: &str = "message: 1 at 0\n\
segments: 1 of 5 words\n\
refused: OverBudget at 0:3, paid 9, visits 5\n\
way: 1.0\n\
slot: byte 24, segment 0 word 3: 0000000001000000: struct of 1 words and 0 slots, offset 0\n\
in: struct of 0 words and 1 slots at byte 24\n\
limit: asks for 2 of 1 left, --budget 10\n";

/// A struct whose only slot points to the struct itself.
const CIRCLE: [u64; 1] = [0x1_0000_ffff_fffc];

/// The lines that explain `CIRCLE` with a depth of two objects.
const CIRCLE_TOLD: &str = "message: 1 at 0\n\
segments: 1 of 1 words\n\
refused: TooDeep at 0:0, paid 4, visits 3\n\
way: 0.0\n\
slot: byte 0, segment 0 word 0: fcffffff00000100: struct of 0 words and 1 slots, offset -1\n\
in: struct of 0 words and 1 slots at byte 0\n\
limit: --depth 2\n";

/// A stream whose root has a slot that points to twenty bytes by a landing pad of two words. The pad and the bytes are
/// in segment 1, which has no room for the bytes.
const FAR: [u64; 7] = [
    0x2_0000_0001,
    0x3,
    0x1_0000_0000_0000,
    0x1_0000_000e,
    0,
    0x1_0000_0012,
    0xa2_0000_0001,
];

/// The lines that explain `FAR`.
const FAR_TOLD: &str = "message: 1 at 0\n\
segments: 2 of 5 words: 2, 3\n\
refused: Range at 0:1, paid 2, visits 2\n\
way: 0\n\
slot: byte 24, segment 0 word 1: 0e00000001000000: double far to segment 1 word 1\n\
in: struct of 0 words and 1 slots at byte 24\n\
pad: byte 40, segment 1 word 1: 1200000001000000: far to segment 1 word 2\n\
pad: byte 48, segment 1 word 2: 01000000a2000000: list of 20 bytes, offset 0\n\
content: words 2 to 5 of segment 1, which has 3\n";

/// Tests whether a bare message is explained by `want`. The numbers in `before` are the index of the message, its
/// offset, and the words of its table.
fn is_told(
    alloc: Global,
    words: &[u64],
    before: (u64, u64, u32),
    limits: Limits,
    want: &str,
) -> Result<bool, Fail> {
    let bytes = bytes_of(alloc, words)?;
    let Ok(bare) = Bare::new(bytes.as_slice()) else {
        return Ok(false);
    };
    let Err(stopped) = survey(alloc, &bare, limits) else {
        return Ok(false);
    };
    let (index, offset, table) = before;
    match explain_stop(alloc, &bare, index, offset, table, limits, stopped) {
        Ok(told) => Ok(told.stopped == stopped && told.text.as_slice() == want.as_bytes()),
        Err(_) => Ok(false),
    }
}

#[test]
fn bare_segments(rt: HostRuntime) -> Result<(), Fail> {
    for (words, want) in BARE {
        assert!(rt; is_told(rt.alloc(), words, (0, 0, 0), Limits::usual(), want)?);
    }
    Ok(())
}

#[test]
fn a_stop_of_a_stream(rt: HostRuntime) -> Result<(), Fail> {
    assert!(rt; is_told(rt.alloc(), &ROWS, (4, 1_000, 1), Limits::usual(), ROWS_TOLD)?);
    Ok(())
}

#[test]
fn rows_of_a_stream(rt: HostRuntime) -> Result<(), Fail> {
    assert!(rt; is_told(rt.alloc(), &MANY, (1, 16, 1), Limits::usual(), MANY_TOLD)?);
    Ok(())
}

#[test]
fn limits_that_are_passed(rt: HostRuntime) -> Result<(), Fail> {
    let usual = Limits::usual();
    let cheap = Limits::new(5, 10, 64).unwrap_or(usual);
    let flat = Limits::new(1, 100, 2).unwrap_or(usual);
    assert!(rt; is_told(rt.alloc(), &SHARED, (0, 0, 0), cheap, SHARED_TOLD)?);
    assert!(rt; is_told(rt.alloc(), &CIRCLE, (0, 0, 0), flat, CIRCLE_TOLD)?);
    Ok(())
}

#[test]
fn two_segments(rt: HostRuntime) -> Result<(), Fail> {
    let bytes = bytes_of(rt.alloc(), &FAR)?;
    let Ok((message, _)) = first(rt.alloc(), bytes.as_slice(), MOST_MESSAGE_WORDS) else {
        return Err(Fail::new("no message"));
    };
    let usual = Limits::usual();
    let Err(stopped) = survey(rt.alloc(), &message, usual) else {
        return Err(Fail::new("not refused"));
    };
    let Ok(told) = explain_stop(rt.alloc(), &message, 0, 0, 2, usual, stopped) else {
        return Err(Fail::new("out of memory"));
    };
    assert!(rt; told.text.as_slice() == FAR_TOLD.as_bytes());
    Ok(())
}

/// An accepted message has no stop to explain.
#[test]
fn no_explanation(rt: HostRuntime) -> Result<(), Fail> {
    let bytes = bytes_of(rt.alloc(), &SHARED)?;
    let Ok(bare) = Bare::new(bytes.as_slice()) else {
        return Err(Fail::new("no words"));
    };
    assert!(rt; survey(rt.alloc(), &bare, Limits::usual()).is_ok());
    Ok(())
}
