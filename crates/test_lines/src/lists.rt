//! Tests of what a line has of its list.

use crate::message_lines::annotate;
use capn_lines::ListPart;
use capn_words::Width;
use std::test::Fail;

/// Returns the part that has all `count` elements of a list of this `width`, with `padding` bits behind them.
fn whole(width: Width, count: u64, padding: u32) -> ListPart {
    ListPart {
        width,
        first: 0,
        count,
        last: true,
        padding,
        padding_not_zero: false,
    }
}

/// Lists of each width, each of which is a line: their counts and the bits behind their last elements.
#[test]
fn lists_of_one_line(rt: HostRuntime) -> Result<(), Fail> {
    // 65 bits.
    let bits = [0x3_0000_0000, 0x209_0000_0001, 5, 1];
    let got = annotate(rt.alloc(), &bits)?;
    assert!(rt; got.parts.as_slice().get(1).copied() == Some(whole(Width::W1, 65, 63)));
    assert!(rt; got.counts.hidden == 0);
    // 8 bytes fill a word.
    let bytes = [0x2_0000_0000, 0x42_0000_0001, 0xff00_0000_0000_0000];
    let got = annotate(rt.alloc(), &bytes)?;
    assert!(rt; got.parts.as_slice().get(1).copied() == Some(whole(Width::W8, 8, 0)));
    assert!(rt; got.counts.hidden == 0);
    // 9 bytes, and a bit behind them.
    let bytes = [0x3_0000_0000, 0x4a_0000_0001, 1, 0x8000_0000_0000_0001];
    let got = annotate(rt.alloc(), &bytes)?;
    let hides = ListPart {
        padding_not_zero: true,
        ..whole(Width::W8, 9, 56)
    };
    assert!(rt; got.parts.as_slice().get(1).copied() == Some(hides));
    assert!(rt; got.counts.hidden == 1);
    // 3 pairs, 1 quad, 2 octs.
    let pairs = [0x2_0000_0000, 0x1b_0000_0001, 0xffff_ffff_ffff];
    let got = annotate(rt.alloc(), &pairs)?;
    assert!(rt; got.parts.as_slice().get(1).copied() == Some(whole(Width::W16, 3, 16)));
    let quads = [0x2_0000_0000, 0xc_0000_0001, 0xffff_ffff];
    let got = annotate(rt.alloc(), &quads)?;
    assert!(rt; got.parts.as_slice().get(1).copied() == Some(whole(Width::W32, 1, 32)));
    let octs = [0x3_0000_0000, 0x15_0000_0001, 1, 2];
    let got = annotate(rt.alloc(), &octs)?;
    assert!(rt; got.parts.as_slice().get(1).copied() == Some(whole(Width::W64, 2, 0)));
    assert!(rt; got.counts.hidden == 0);
    Ok(())
}

/// A list of 17 bytes, over whose second word a list of 8 bytes lies: three lines.
#[test]
fn a_list_of_three_lines(rt: HostRuntime) -> Result<(), Fail> {
    let words = [
        0x6_0000_0000,
        0x2_0000_0000_0000,
        0x8a_0000_0005,
        0x42_0000_0005,
        1,
        2,
        0x100,
    ];
    let got = annotate(rt.alloc(), &words)?;
    let middle = ListPart {
        first: 8,
        last: false,
        ..whole(Width::W8, 8, 0)
    };
    let end = ListPart {
        first: 16,
        padding_not_zero: true,
        ..whole(Width::W8, 1, 56)
    };
    let start = ListPart { first: 0, ..middle };
    assert!(rt; got.parts.as_slice().get(3).copied() == Some(start));
    assert!(rt; got.parts.as_slice().get(4).copied() == Some(middle));
    assert!(rt; got.parts.as_slice().get(5).copied() == Some(end));
    assert!(rt; got.counts.overlap == 1);
    assert!(rt; got.counts.hidden == 1);
    Ok(())
}
