//! Tests of generated messages, whose lines and counts were found by the model in tests/program.

use crate::message_lines::annotate;
use std::alloc::Global;
use std::test::Fail;

/// Returns the lines of the message of one segment that has these words, and its counts: for each line the place, the
/// words, the times, the kind, how many words are cut and how many are not zero, and whether they overlap.
fn text_of(alloc: Global, words: &[u64]) -> Result<String, Fail> {
    let mut framed = Vec::new(alloc);
    framed.push((words.len() as u64) << 32)?;
    framed.extend_from_slice(words)?;
    let got = annotate(alloc, framed.as_slice())?;
    let mut text = String::new(alloc);
    for line in got.lines.as_slice() {
        let shown = format!(in alloc;
            "{}:{} {} {} {:?} {} {} {}\n",
            line.place.segment,
            line.place.word,
            line.words,
            line.times,
            line.kind,
            line.cut,
            line.not_zero,
            line.overlap
        )?;
        text.push_str(shown.as_str())?;
    }
    let counts = got.counts;
    let kinds = format!(in alloc;
        "{} {} {} {} {} {} {} {} {}",
        counts.words,
        counts.pointer,
        counts.null,
        counts.pad,
        counts.tag,
        counts.data,
        counts.list,
        counts.slack,
        counts.unreached
    )?;
    text.push_str(kinds.as_str())?;
    let tests = format!(in alloc;
        " shared {} overlap {} hidden {} cut {}\n",
        counts.shared, counts.overlap, counts.hidden, counts.cut
    )?;
    text.push_str(tests.as_str())?;
    Ok(text)
}

#[test]
fn generated_messages(rt: HostRuntime) -> Result<(), Fail> {
    let words = [
        0x2_0000_0008,
        0x1_0000_0000,
        0x6261,
        0x1_0002_0000_0008,
        0,
        0x211_0000_0009,
        0,
        0,
        0xe_0000_0001,
        0x6261,
    ];
    let want = "0:0 1 1 Pointer 0 1 false\n\
        0:1 2 0 Unreached 0 2 false\n\
        0:3 2 1 Data 1 1 false\n\
        0:5 5 0 Unreached 0 3 false\n\
        10 1 0 0 0 2 0 0 7 shared 0 overlap 0 hidden 5 cut 1\n";
    assert!(rt; text_of(rt.alloc(), &words)?.as_str() == want);
    let words = [
        0x27_0000_0005,
        0,
        0x1_0001_0000_0004,
        1,
        0,
        0x100,
        1,
        0,
        0,
        0x100,
    ];
    let want = "0:0 1 1 Pointer 0 1 false\n\
        0:1 1 0 Unreached 0 0 false\n\
        0:2 1 1 Tag 0 1 false\n\
        0:3 1 1 Data 0 1 false\n\
        0:4 1 1 Null 1 0 false\n\
        0:5 2 1 Slack 0 2 false\n\
        0:7 3 0 Unreached 0 1 false\n\
        10 1 1 0 1 1 0 2 4 shared 0 overlap 0 hidden 3 cut 1\n";
    assert!(rt; text_of(rt.alloc(), &words)?.as_str() == want);
    let words = [
        0x1_0002_0000_0000,
        0,
        0x100,
        0,
        0xff00_0000_0000_0000,
        1,
        0x2b_ffff_fffd,
        4,
        0xff00_0000_0000_0000,
        1,
        0x1_0000_0000,
    ];
    let want = "0:0 1 1 Pointer 0 1 false\n\
        0:1 2 1 Data 0 1 false\n\
        0:3 1 1 Null 1 0 false\n\
        0:4 7 0 Unreached 0 7 false\n\
        11 1 1 0 0 2 0 0 7 shared 0 overlap 0 hidden 7 cut 1\n";
    assert!(rt; text_of(rt.alloc(), &words)?.as_str() == want);
    let words = [
        0x16_0000_0015,
        0x2_0000_0004,
        0,
        0x6261,
        0x100,
        0xf_0000_0011,
        0xc2_0000_0005,
        0,
        0x100,
        0xe_ffff_ffdd,
        0,
    ];
    let want = "0:0 1 1 Pointer 0 1 false\n\
        0:1 5 0 Unreached 0 4 false\n\
        0:6 1 1 Pointer 0 1 false\n\
        0:7 1 1 Null 0 0 false\n\
        0:8 3 1 List 0 2 false\n\
        11 2 1 0 0 0 3 0 5 shared 0 overlap 0 hidden 4 cut 0\n";
    assert!(rt; text_of(rt.alloc(), &words)?.as_str() == want);
    let words = [
        0x16_0000_0005,
        0xff00_0000_0000_0000,
        0x1_0001_0000_0000,
        0x24_0000_0009,
        0,
        4,
        0x27_0000_0001,
        0,
        0x27_0000_0001,
    ];
    let want = "0:0 1 1 Pointer 0 1 false\n\
        0:1 1 0 Unreached 0 1 false\n\
        0:2 1 1 Pointer 0 1 false\n\
        0:3 1 2 Pointer 0 1 true\n\
        0:4 1 1 Null 1 0 false\n\
        0:5 1 0 Unreached 0 1 false\n\
        0:6 2 1 List 0 1 false\n\
        0:8 1 0 Unreached 0 1 false\n\
        9 3 1 0 0 0 2 0 3 shared 1 overlap 1 hidden 3 cut 1\n";
    assert!(rt; text_of(rt.alloc(), &words)?.as_str() == want);
    Ok(())
}

#[test]
fn generated_messages_of_overlaps(rt: HostRuntime) -> Result<(), Fail> {
    let words = [
        0x16_0000_000d,
        0xff00_0000_0000_0000,
        1,
        0x1_0000_0000_0008,
        0x2_0001_0000_0004,
        0,
        0x211_0000_0005,
        0xb_0000_0005,
        0,
        0x1_0001_0000_0000,
    ];
    let want = "0:0 1 1 Pointer 0 1 false\n\
        0:1 3 0 Unreached 0 3 false\n\
        0:4 1 1 Pointer 0 1 false\n\
        0:5 1 1 Null 0 0 false\n\
        0:6 1 1 Data 0 1 false\n\
        0:7 1 1 Pointer 0 1 false\n\
        0:8 1 1 Null 1 0 false\n\
        0:9 1 1 List 0 1 false\n\
        10 3 2 0 0 1 1 0 3 shared 0 overlap 0 hidden 4 cut 1\n";
    assert!(rt; text_of(rt.alloc(), &words)?.as_str() == want);
    let words = [
        0x1_0001_0000_0000,
        4,
        0x3c9_0000_0001,
        0x6261,
        0x15_ffff_fffd,
        0x1_0002_0000_0008,
    ];
    let want = "0:0 1 1 Pointer 0 1 false\n\
        0:1 1 1 Data 0 1 false\n\
        0:2 1 1 Pointer 0 1 false\n\
        0:3 2 1 List 0 2 false\n\
        0:5 1 0 Unreached 0 1 false\n\
        6 2 0 0 0 1 2 0 1 shared 0 overlap 0 hidden 1 cut 0\n";
    assert!(rt; text_of(rt.alloc(), &words)?.as_str() == want);
    let words = [
        0x2_0002_0000_0004,
        1,
        0x1_0001_0000_0004,
        0,
        0,
        0x14_ffff_fff9,
    ];
    let want = "0:0 1 1 Pointer 0 1 false\n\
        0:1 1 0 Unreached 0 1 false\n\
        0:2 2 1 Data 1 1 false\n\
        0:4 1 2 Null 0 0 true\n\
        0:5 1 1 Pointer 0 1 false\n\
        6 2 1 0 0 2 0 0 1 shared 1 overlap 1 hidden 1 cut 1\n";
    assert!(rt; text_of(rt.alloc(), &words)?.as_str() == want);
    let words = [
        0x2_0001_0000_0000,
        0,
        0x1a_0000_0001,
        1,
        0x1c_0000_0001,
        0xe_0000_0001,
        0x72_0000_0001,
    ];
    let want = "0:0 1 1 Pointer 0 1 false\n\
        0:1 1 1 Data 1 0 false\n\
        0:2 1 1 Pointer 0 1 false\n\
        0:3 1 2 Pointer 0 1 true\n\
        0:4 3 0 Unreached 0 3 false\n\
        7 3 0 0 0 1 0 0 3 shared 1 overlap 1 hidden 3 cut 1\n";
    assert!(rt; text_of(rt.alloc(), &words)?.as_str() == want);
    let words = [0x2_0000_0000_0004, 1, 0x1_0000_0000_0000, 0, 0];
    let want = "0:0 1 1 Pointer 0 1 false\n\
        0:1 1 0 Unreached 0 1 false\n\
        0:2 1 1 Pointer 0 1 false\n\
        0:3 1 2 Null 1 0 true\n\
        0:4 1 0 Unreached 0 0 false\n\
        5 2 1 0 0 0 0 0 2 shared 1 overlap 1 hidden 1 cut 1\n";
    assert!(rt; text_of(rt.alloc(), &words)?.as_str() == want);
    Ok(())
}
