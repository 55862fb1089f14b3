//! Tests of the examination of slots at which walks were refused.

use crate::words::bytes_of;
use capn_diagnostics::{Examined, Limit, Pad, RowWords, SlotText, Stretch, examine};
use capn_target::segment_length;
use capn_walk::{Limits, survey};
use capn_words::{Bare, Place};
use std::alloc::Global;
use std::test::Fail;

/// Returns the text of `word`, which is at word `index` of the first segment and begins at `byte`.
fn slot(byte: u128, index: u32, word: u64) -> SlotText {
    SlotText {
        byte,
        place: Place {
            segment: 0,
            word: index,
        },
        word,
    }
}

/// Returns the findings about the slot `at`, if there is nothing else to find.
fn only(at: SlotText) -> Examined {
    Examined {
        slot: at,
        pad: Pad::Absent,
        tag: None,
        content: None,
        rows: None,
        limit: None,
    }
}

/// Returns the words from `start` to `end` of the first segment, which has `length` words.
fn stretch(start: i64, end: i64, length: u32) -> Option<Stretch> {
    Some(Stretch {
        segment: 0,
        start,
        end,
        length,
    })
}

/// Returns the findings about the slot at which the walk of `words` is refused within `budget`. The message begins with
/// a table of `table` words at the byte `offset` of a stream.
fn findings(
    alloc: Global,
    words: &[u64],
    budget: u32,
    offset: u64,
    table: u32,
) -> Result<Examined, Fail> {
    let bytes = bytes_of(alloc, words)?;
    let Ok(bare) = Bare::new(bytes.as_slice()) else {
        return Err(Fail::new("no words"));
    };
    let limits = Limits::new(8, budget, 3).unwrap_or(Limits::usual());
    let Err(stopped) = survey(alloc, &bare, limits) else {
        return Err(Fail::new("accepted"));
    };
    if segment_length(&bare, stopped.place.segment) <= stopped.place.word {
        return Err(Fail::new("no slot"));
    }
    Ok(examine(&bare, offset, table, limits, stopped))
}

/// A capability at the root, and a reserved pointer. Only the slot is found.
#[test]
fn a_slot_alone(rt: HostRuntime) -> Result<(), Fail> {
    let capability = findings(rt.alloc(), &[0x7_0000_0003], 8, 0, 0)?;
    assert!(rt; capability == only(slot(0, 0, 0x7_0000_0003)));
    let slots = [0x2_0000_0000_0000, 0, 7];
    let reserved = findings(rt.alloc(), &slots, 8, 1_000, 1)?;
    assert!(rt; reserved == only(slot(1_024, 2, 7)));
    Ok(())
}

/// The words to which a pointer leads may lie after its segment, or before it. Those of a landing pad may, too.
#[test]
fn words_out_of_range(rt: HostRuntime) -> Result<(), Fail> {
    let after = findings(rt.alloc(), &[0x1_0000_0014], 8, 0, 0)?;
    let want = Examined {
        content: stretch(6, 7, 1),
        ..only(slot(0, 0, 0x1_0000_0014))
    };
    assert!(rt; after == want);
    let before = findings(rt.alloc(), &[0x1_ffff_ffec], 8, 0, 0)?;
    let want = Examined {
        content: stretch(-4, -3, 1),
        ..only(slot(0, 0, 0x1_ffff_ffec))
    };
    assert!(rt; before == want);
    let pad = findings(rt.alloc(), &[0x2a], 8, 0, 0)?;
    let want = Examined {
        content: stretch(5, 6, 1),
        ..only(slot(0, 0, 0x2a))
    };
    assert!(rt; pad == want);
    Ok(())
}

/// A landing pad of one word that is a far pointer, and one of two words that leads to two rows, over the budget.
#[test]
fn landing_pads(rt: HostRuntime) -> Result<(), Fail> {
    let bad = findings(rt.alloc(), &[0xa, 0x1a], 8, 0, 0)?;
    let want = Examined {
        pad: Pad::One(slot(8, 1, 0x1a)),
        ..only(slot(0, 0, 0xa))
    };
    assert!(rt; bad == want);
    let rows = [0xe, 0x1a, 0x17_0000_0001, 0x1_0000_0008, 7, 9];
    let two = findings(rt.alloc(), &rows, 3, 0, 0)?;
    let want = Examined {
        pad: Pad::Two(slot(8, 1, 0x1a), slot(16, 2, 0x17_0000_0001)),
        tag: Some(slot(24, 3, 0x1_0000_0008)),
        limit: Some(Limit::Budget(6, 3, 3)),
        ..only(slot(0, 0, 0xe))
    };
    assert!(rt; two == want);
    Ok(())
}

/// A list whose tag gives more rows than the list has words for, in the slot of a struct.
#[test]
fn rows_past_their_list(rt: HostRuntime) -> Result<(), Fail> {
    let many = [0x1_0000_0000_0000, 0x1f_0000_0001, 0x2_0000_0008, 1, 2, 3];
    let found = findings(rt.alloc(), &many, 8, 16, 1)?;
    let want = Examined {
        tag: Some(slot(40, 2, 0x2_0000_0008)),
        content: stretch(2, 6, 6),
        rows: Some(RowWords {
            count: 2,
            each: 2,
            words: 4,
            span: 3,
        }),
        ..only(slot(32, 1, 0x1f_0000_0001))
    };
    assert!(rt; found == want);
    Ok(())
}

/// A struct in its own slot is too deep, its slot may exceed what is left of the budget, and a segment may not exist.
#[test]
fn limits_that_are_exceeded(rt: HostRuntime) -> Result<(), Fail> {
    let circle = 0x1_0000_ffff_fffc;
    let deep = findings(rt.alloc(), &[circle], 8, 0, 0)?;
    let want = Examined {
        limit: Some(Limit::Depth(3)),
        ..only(slot(0, 0, circle))
    };
    assert!(rt; deep == want);
    let costly = findings(rt.alloc(), &[circle], 5, 0, 0)?;
    let want = Examined {
        limit: Some(Limit::Budget(2, 1, 5)),
        ..only(slot(0, 0, circle))
    };
    assert!(rt; costly == want);
    let apart = findings(rt.alloc(), &[0x1_0000_0002], 8, 0, 0)?;
    let want = Examined {
        limit: Some(Limit::Segments(1)),
        ..only(slot(0, 0, 0x1_0000_0002))
    };
    assert!(rt; apart == want);
    Ok(())
}
