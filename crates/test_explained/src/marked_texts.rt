//! Tests of the texts of messages with marks before their lines.

use crate::words::bytes_of;
use capn_marks::{Marks, show_marked};
use capn_walk::Limits;
use capn_words::{Bare, Watched};
use std::alloc::Global;
use std::test::Fail;

/// A struct of a word and two slots: a list of three numbers, and a list of one row with a word and a null slot.
const STRUCT: [u64; 8] = [
    0x2_0001_0000_0000,
    5,
    0x1b_0000_0005,
    0x17_0000_0005,
    0x9_0008_0007,
    0x1_0001_0000_0004,
    6,
    0,
];

/// The lines of `STRUCT`, each with its offset and path.
const LINES: &str = "0\troot\tstruct 1 2
8\troot\t  word 0000000000000005
16\t0\t  u16 3
32\t0\t    7
34\t0\t    8
36\t0\t    9
24\t1\t  rows 1
48\t1.0\t    struct 1 1
48\t1.0\t      word 0000000000000006
56\t1.0.0\t      null
";

/// The lines of the row of `STRUCT`, each with its offset in a stream. The words of the message begin at byte 8 of the
/// stream.
const ROW: &str = "56\tstruct 1 1
56\t  word 0000000000000006
64\t  null
";

/// Tests whether the text at the path `numbers` is `want`.
fn is_shown(alloc: Global, marks: Marks, numbers: &[u64], want: &str) -> Result<bool, Fail> {
    let bytes = bytes_of(alloc, &STRUCT)?;
    let Ok(space) = Bare::new(&bytes) else {
        return Ok(false);
    };
    let mut text = Vec::new(alloc);
    let mut writer = Watched::new(Vec::new(alloc));
    let limits = Limits::usual();
    let outcome = show_marked(
        alloc,
        &mut text,
        &mut writer,
        &space,
        limits,
        marks,
        numbers,
    );
    Ok(outcome.is_ok() && text.as_slice() == want.as_bytes())
}

#[test]
fn offset_and_path_of_each_line(rt: HostRuntime) -> Result<(), Fail> {
    let marks = Marks {
        offsets: true,
        ways: true,
        quoted: false,
        offset: 0,
        table: 0,
    };
    assert!(rt; is_shown(rt.alloc(), marks, &[], LINES)?);
    assert!(rt; is_shown(rt.alloc(), marks, &[1, 0, 0], "56\t1.0.0\tnull\n")?);
    assert!(rt; is_shown(rt.alloc(), marks, &[2], "\t\tnone\n")?);
    Ok(())
}

#[test]
fn offsets_of_a_row(rt: HostRuntime) -> Result<(), Fail> {
    let marks = Marks {
        offsets: true,
        ways: false,
        quoted: true,
        offset: 0,
        table: 1,
    };
    assert!(rt; is_shown(rt.alloc(), marks, &[1, 0], ROW)?);
    assert!(rt; is_shown(rt.alloc(), marks, &[0, 0], "\tnone\n")?);
    Ok(())
}

/// The line of the null slot of the row, in a message that begins near the greatest offset.
const FAR: &str = "18446744073709551687\t1.0.0\tnull
";

#[test]
fn offset_past_64_bits(rt: HostRuntime) -> Result<(), Fail> {
    let marks = Marks {
        offsets: true,
        ways: true,
        quoted: false,
        offset: u64::MAX,
        table: 2,
    };
    assert!(rt; is_shown(rt.alloc(), marks, &[1, 0, 0], FAR)?);
    Ok(())
}

#[test]
fn quoted_lists_and_levels(rt: HostRuntime) -> Result<(), Fail> {
    let marks = Marks {
        offsets: false,
        ways: false,
        quoted: true,
        offset: 40,
        table: 1,
    };
    assert!(rt; is_shown(rt.alloc(), marks, &[0], "u16 3\n  7\n  8\n  9\n")?);
    assert!(rt; is_shown(rt.alloc(), marks, &[7], "none\n")?);
    Ok(())
}
