//! Tests of the lines and the counts of whole messages.

use crate::message_lines::annotate;
use capn_lines::{Counts, Kind, Line};
use capn_words::Place;
use std::test::Fail;

/// Returns the line of one word, which is not zero, at word `word` of segment 0.
fn one(word: u32, times: u32, kind: Kind, slot: u32) -> Line {
    Line {
        place: Place { segment: 0, word },
        words: 1,
        times,
        kind,
        slot,
        cut: 0,
        not_zero: 1,
        overlap: false,
    }
}

/// Returns the line `line` in segment 1.
fn second(line: Line) -> Line {
    Line {
        place: Place {
            segment: 1,
            word: line.place.word,
        },
        ..line
    }
}

/// Returns the counts of `words` words that are of no kind yet.
fn counts(words: u32) -> Counts {
    Counts {
        words,
        pointer: 0,
        null: 0,
        pad: 0,
        tag: 0,
        data: 0,
        list: 0,
        slack: 0,
        unreached: 0,
        shared: 0,
        overlap: 0,
        hidden: 0,
        cut: 0,
    }
}

/// A struct with a number and a list of three bytes.
#[test]
fn a_struct_and_a_text(rt: HostRuntime) -> Result<(), Fail> {
    let words = [0x4_0000_0000, 0x1_0001_0000_0000, 5, 0x1a_0000_0001, 0x6261];
    let got = annotate(rt.alloc(), &words)?;
    let want = [
        one(0, 1, Kind::Pointer, 0),
        one(1, 1, Kind::Data, 0),
        one(2, 1, Kind::Pointer, 0),
        one(3, 1, Kind::List, 2),
    ];
    assert!(rt; got.lines.as_slice() == want.as_slice());
    let total = Counts {
        pointer: 2,
        data: 1,
        list: 1,
        ..counts(4)
    };
    assert!(rt; got.counts == total);
    Ok(())
}

/// A list of bytes that was set twice. The word of the first one is reached no longer.
#[test]
fn a_text_that_was_set_twice(rt: HostRuntime) -> Result<(), Fail> {
    let words = [
        0x4_0000_0000,
        0x1_0000_0000_0000,
        0x32_0000_0005,
        0x61_6441,
        0x65_6361_7247,
    ];
    let got = annotate(rt.alloc(), &words)?;
    let want = [
        one(0, 1, Kind::Pointer, 0),
        one(1, 1, Kind::Pointer, 0),
        one(2, 0, Kind::Unreached, 0),
        one(3, 1, Kind::List, 1),
    ];
    assert!(rt; got.lines.as_slice() == want.as_slice());
    let total = Counts {
        pointer: 2,
        list: 1,
        unreached: 1,
        hidden: 1,
        ..counts(4)
    };
    assert!(rt; got.counts == total);
    Ok(())
}

/// A landing pad, a text that is shared, a word and a slot that canonical bytes leave out.
#[test]
fn a_landing_pad_and_a_shared_text(rt: HostRuntime) -> Result<(), Fail> {
    let words = [
        0x1_0000_0001,
        6,
        0x1_0000_0002,
        0x3_0001_0000_0000,
        0,
        0x1a_0000_0009,
        0x1a_0000_0005,
        0,
        0x6968,
    ];
    let got = annotate(rt.alloc(), &words)?;
    let data = Line {
        cut: 1,
        not_zero: 0,
        ..one(1, 1, Kind::Data, 0)
    };
    let null = Line {
        cut: 1,
        not_zero: 0,
        ..one(4, 1, Kind::Null, 0)
    };
    let want = [
        one(0, 1, Kind::Pointer, 0),
        second(one(0, 1, Kind::Pad, 0)),
        second(data),
        second(one(2, 1, Kind::Pointer, 0)),
        second(one(3, 1, Kind::Pointer, 0)),
        second(null),
        second(one(5, 2, Kind::List, 3)),
    ];
    assert!(rt; got.lines.as_slice() == want.as_slice());
    let total = Counts {
        pointer: 3,
        null: 1,
        pad: 1,
        data: 1,
        list: 1,
        shared: 1,
        cut: 2,
        ..counts(7)
    };
    assert!(rt; got.counts == total);
    Ok(())
}

/// Two rows, of which the second is a list of quads too, and slack.
#[test]
fn rows_a_list_over_them_and_slack(rt: HostRuntime) -> Result<(), Fail> {
    let words = [
        0x7_0000_0000,
        0x2_0000_0000_0000,
        0x1f_0000_0005,
        0x14_0000_0009,
        0x1_0000_0008,
        7,
        9,
        0xffff_ffff_ffff_ffff,
    ];
    let got = annotate(rt.alloc(), &words)?;
    let over = Line {
        overlap: true,
        ..one(5, 2, Kind::Data, 1)
    };
    let want = [
        one(0, 1, Kind::Pointer, 0),
        one(1, 1, Kind::Pointer, 0),
        one(2, 1, Kind::Pointer, 0),
        one(3, 1, Kind::Tag, 1),
        one(4, 1, Kind::Data, 1),
        over,
        one(6, 1, Kind::Slack, 1),
    ];
    assert!(rt; got.lines.as_slice() == want.as_slice());
    let total = Counts {
        pointer: 3,
        tag: 1,
        data: 2,
        slack: 1,
        shared: 1,
        overlap: 1,
        hidden: 1,
        ..counts(7)
    };
    assert!(rt; got.counts == total);
    Ok(())
}

/// The data of two rows side by side are one line, and so are words that nothing covers. Two structs side by side are
/// two lines.
#[test]
fn words_side_by_side(rt: HostRuntime) -> Result<(), Fail> {
    // A list of two rows with two words each, and two words that nothing covers.
    let rows = [
        0x8_0000_0000,
        0x27_0000_0001,
        0x2_0000_0008,
        1,
        0,
        3,
        4,
        0,
        9,
    ];
    let got = annotate(rt.alloc(), &rows)?;
    let data = Line {
        words: 4,
        not_zero: 3,
        ..one(2, 1, Kind::Data, 0)
    };
    let behind = Line {
        words: 2,
        ..one(6, 0, Kind::Unreached, 0)
    };
    let want = [
        one(0, 1, Kind::Pointer, 0),
        one(1, 1, Kind::Tag, 0),
        data,
        behind,
    ];
    assert!(rt; got.lines.as_slice() == want.as_slice());
    // A struct with two slots, which lead to two structs of one word side by side.
    let structs = [
        0x5_0000_0000,
        0x2_0000_0000_0000,
        0x1_0000_0004,
        0x1_0000_0004,
        1,
        2,
    ];
    let got = annotate(rt.alloc(), &structs)?;
    let want = [
        one(0, 1, Kind::Pointer, 0),
        one(1, 1, Kind::Pointer, 0),
        one(2, 1, Kind::Pointer, 0),
        one(3, 1, Kind::Data, 1),
        one(4, 1, Kind::Data, 2),
    ];
    assert!(rt; got.lines.as_slice() == want.as_slice());
    Ok(())
}
