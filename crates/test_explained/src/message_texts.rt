//! Tests of the texts of slots, of objects that hold slots, of segments, and of the line `canonical`.

use crate::words::bytes_of;
use capn_diagnostics::{CanonicalText, HolderText, SegmentsText, SlotText};
use capn_mismatch::{CanonicalLines, Mismatch};
use capn_path::Holder;
use capn_words::{Bare, Place};
use std::test::Fail;

/// A struct with two words and a slot, behind the root's pointer. The slot is null.
const WORDS: [u64; 4] = [0x1_0002_0000_0000, 5, 6, 0];

#[test]
fn texts_of_slots(rt: HostRuntime) -> Result<(), Fail> {
    let alloc = rt.alloc();
    let bytes = bytes_of(alloc, &WORDS)?;
    let Ok(bare) = Bare::new(bytes.as_slice()) else {
        return Err(Fail::new("no words"));
    };
    let root = Place {
        segment: 0,
        word: 0,
    };
    // A message at byte 1,000 of a stream has its first word behind a table of one word.
    let slot = SlotText::at(&bare, 1_000, 1, root);
    let text = format!(in alloc; "{slot}")?;
    let want =
        "byte 1008, segment 0 word 0: 0000000002000100: struct of 2 words and 1 slots, offset 0";
    assert!(rt; text.as_str() == want);
    let last = Place {
        segment: 0,
        word: 3,
    };
    let slot = SlotText::at(&bare, 0, 0, last);
    assert!(rt; slot.byte == 24);
    assert!(rt; slot.place == last);
    assert!(rt; slot.word == 0);
    Ok(())
}

#[test]
fn texts_of_holders(rt: HostRuntime) -> Result<(), Fail> {
    let alloc = rt.alloc();
    let bytes = bytes_of(alloc, &WORDS)?;
    let Ok(bare) = Bare::new(bytes.as_slice()) else {
        return Err(Fail::new("no words"));
    };
    let at = Place {
        segment: 0,
        word: 1,
    };
    for (holder, want) in [
        (
            Holder::Struct {
                words: 2,
                slots: 1,
                at,
            },
            "struct of 2 words and 1 slots at byte 116",
        ),
        (
            Holder::Pointers { count: 3, at },
            "list of 3 pointers at byte 116",
        ),
        (
            Holder::Row {
                row: 4,
                count: 5,
                at,
            },
            "row 4 of 5 at byte 116",
        ),
    ] {
        let holder = HolderText::of(&bare, 100, 1, holder);
        let text = format!(in alloc; "{holder}")?;
        assert!(rt; text.as_str() == want);
    }
    Ok(())
}

#[test]
fn text_of_one_segment(rt: HostRuntime) -> Result<(), Fail> {
    let alloc = rt.alloc();
    let bytes = bytes_of(alloc, &WORDS)?;
    let Ok(bare) = Bare::new(bytes.as_slice()) else {
        return Err(Fail::new("no words"));
    };
    let segments = SegmentsText::of(&bare);
    let text = format!(in alloc; "{segments}")?;
    assert!(rt; text.as_str() == "1 of 4 words");
    assert!(rt; segments.first == [4, 0, 0, 0, 0, 0, 0, 0]);
    Ok(())
}

/// Returns the lines of a message with this `mismatch`, whose table of one word begins at byte 40 of a stream.
fn lines(mismatch: Mismatch) -> CanonicalLines {
    CanonicalLines {
        mismatch,
        offset: 40,
        table: 1,
        lengths: None,
    }
}

/// The line `canonical` of a canonical message, of a message of three segments, and of a message with a word after its
/// value.
#[test]
fn texts_of_the_line_canonical(rt: HostRuntime) {
    let yes = lines(Mismatch::Canonical);
    assert!(rt; yes.canonical() == CanonicalText::Yes);
    let segments = lines(Mismatch::Segments(3));
    assert!(rt; segments.canonical() == CanonicalText::Segments(3));
    let after = lines(Mismatch::After { word: 2, is: 7 });
    assert!(rt; after.canonical() == CanonicalText::After(64, 7));
}
