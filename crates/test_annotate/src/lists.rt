//! Lists of numbers, with the lines that an implementation of the page in another language writes.

use crate::run::writes;
use capn_canon::Form;
use std::test::Fail;

/// A text of 40 bytes, of which 32 are quoted.
const LONG_TEXT: [u8; 56] = [
    0x0, 0x0, 0x0, 0x0, 0x0, 0x0, 0x1, 0x0, 0x1, 0x0, 0x0, 0x0, 0x42, 0x1, 0x0, 0x0, 0x54, 0x68,
    0x65, 0x20, 0x71, 0x75, 0x69, 0x63, 0x6b, 0x20, 0x62, 0x72, 0x6f, 0x77, 0x6e, 0x20, 0x66, 0x6f,
    0x78, 0x20, 0x6a, 0x75, 0x6d, 0x70, 0x73, 0x20, 0x6f, 0x76, 0x65, 0x72, 0x20, 0x74, 0x68, 0x65,
    0x20, 0x6c, 0x61, 0x7a, 0x79, 0x0,
];

/// The lines of `LONG_TEXT`.
const LONG_TEXT_LINES: &[u8] = b"\
0\t0:0\t0000000000000100\t1\tpointer\troot\tstruct of 0 words and 1 slots, offset 0, to 0:1\n\
8\t0:1\t0100000042010000\t1\tpointer\t0\tlist of 40 bytes, offset 0, to 0:2\n\
16\t0:2-6\t5468652071756963..\t1\tlist\t0\t40 bytes \"The quick brown fox jumps over t\"..\n\
56\tend\t1 at 0 words 7 pointer 2 null 0 pad 0 tag 0 data 0 list 5 slack 0 unreached 0 \
shared 0 overlap 0 hidden 0 cut 0 canonical 7\n\
";

#[test]
fn long_text(rt: HostRuntime) -> Result<(), Fail> {
    assert!(rt; writes(rt.alloc(), Form::Bare, &LONG_TEXT, LONG_TEXT_LINES));
    Ok(())
}

/// A list of bytes with a zero that is not its last byte, which is not quoted.
const INNER_ZERO: [u8; 24] = [
    0x0, 0x0, 0x0, 0x0, 0x0, 0x0, 0x1, 0x0, 0x1, 0x0, 0x0, 0x0, 0x1a, 0x0, 0x0, 0x0, 0x61, 0x0,
    0x62, 0x0, 0x0, 0x0, 0x0, 0x0,
];

/// The lines of `INNER_ZERO`.
const INNER_ZERO_LINES: &[u8] = b"\
0\t0:0\t0000000000000100\t1\tpointer\troot\tstruct of 0 words and 1 slots, offset 0, to 0:1\n\
8\t0:1\t010000001a000000\t1\tpointer\t0\tlist of 3 bytes, offset 0, to 0:2\n\
16\t0:2\t6100620000000000\t1\tlist\t0\t3 bytes, padding 5 bytes\n\
24\tend\t1 at 0 words 3 pointer 2 null 0 pad 0 tag 0 data 0 list 1 slack 0 unreached 0 \
shared 0 overlap 0 hidden 0 cut 0 canonical 3\n\
";

#[test]
fn inner_zero(rt: HostRuntime) -> Result<(), Fail> {
    assert!(rt; writes(rt.alloc(), Form::Bare, &INNER_ZERO, INNER_ZERO_LINES));
    Ok(())
}

/// A text without a zero at its end, with bytes that are escaped. Its words are full.
const FULL_TEXT: [u8; 24] = [
    0x0, 0x0, 0x0, 0x0, 0x0, 0x0, 0x1, 0x0, 0x1, 0x0, 0x0, 0x0, 0x42, 0x0, 0x0, 0x0, 0x61, 0x22,
    0x62, 0x5c, 0x63, 0x22, 0x64, 0x21,
];

/// The lines of `FULL_TEXT`.
const FULL_TEXT_LINES: &[u8] = b"\
0\t0:0\t0000000000000100\t1\tpointer\troot\tstruct of 0 words and 1 slots, offset 0, to 0:1\n\
8\t0:1\t0100000042000000\t1\tpointer\t0\tlist of 8 bytes, offset 0, to 0:2\n\
16\t0:2\t6122625c63226421\t1\tlist\t0\t8 bytes \"a\\\"b\\\\c\\\"d!\"\n\
24\tend\t1 at 0 words 3 pointer 2 null 0 pad 0 tag 0 data 0 list 1 slack 0 unreached 0 \
shared 0 overlap 0 hidden 0 cut 0 canonical 3\n\
";

#[test]
fn full_text(rt: HostRuntime) -> Result<(), Fail> {
    assert!(rt; writes(rt.alloc(), Form::Bare, &FULL_TEXT, FULL_TEXT_LINES));
    Ok(())
}

/// A text of which a struct of one word overlaps the first word: the rest is a line of its own.
const CUT_TEXT: [u8; 40] = [
    0x0, 0x0, 0x0, 0x0, 0x0, 0x0, 0x2, 0x0, 0x4, 0x0, 0x0, 0x0, 0x1, 0x0, 0x0, 0x0, 0x1, 0x0, 0x0,
    0x0, 0x62, 0x0, 0x0, 0x0, 0x61, 0x62, 0x63, 0x64, 0x65, 0x66, 0x67, 0x68, 0x69, 0x6a, 0x6b,
    0x0, 0x0, 0x0, 0x0, 0x0,
];

/// The lines of `CUT_TEXT`.
const CUT_TEXT_LINES: &[u8] = b"\
0\t0:0\t0000000000000200\t1\tpointer\troot\tstruct of 0 words and 2 slots, offset 0, to 0:1\n\
8\t0:1\t0400000001000000\t1\tpointer\t0\tstruct of 1 words and 0 slots, offset 1, to 0:3\n\
16\t0:2\t0100000062000000\t1\tpointer\t1\tlist of 12 bytes, offset 0, to 0:3\n\
24\t0:3\t6162636465666768\t2\tdata\t0\t1 words, overlap\n\
32\t0:4\t696a6b0000000000\t1\tlist\t1\t12 bytes \"ijk\\0\", padding 4 bytes\n\
40\tend\t1 at 0 words 5 pointer 3 null 0 pad 0 tag 0 data 1 list 1 slack 0 unreached 0 \
shared 1 overlap 1 hidden 0 cut 0 canonical 6\n\
";

#[test]
fn cut_text(rt: HostRuntime) -> Result<(), Fail> {
    assert!(rt; writes(rt.alloc(), Form::Bare, &CUT_TEXT, CUT_TEXT_LINES));
    Ok(())
}

/// Ten bits, of which one behind the last is 1.
const BITS: [u8; 24] = [
    0x0, 0x0, 0x0, 0x0, 0x0, 0x0, 0x1, 0x0, 0x1, 0x0, 0x0, 0x0, 0x51, 0x0, 0x0, 0x0, 0x1, 0x80,
    0x0, 0x0, 0x0, 0x0, 0x0, 0x0,
];

/// The lines of `BITS`.
const BITS_LINES: &[u8] = b"\
0\t0:0\t0000000000000100\t1\tpointer\troot\tstruct of 0 words and 1 slots, offset 0, to 0:1\n\
8\t0:1\t0100000051000000\t1\tpointer\t0\tlist of 10 bits, offset 0, to 0:2\n\
16\t0:2\t0180000000000000\t1\tlist\t0\t10 bits, padding 54 bits not zero\n\
24\tend\t1 at 0 words 3 pointer 2 null 0 pad 0 tag 0 data 0 list 1 slack 0 unreached 0 \
shared 0 overlap 0 hidden 1 cut 0 canonical 3\n\
";

#[test]
fn bits(rt: HostRuntime) -> Result<(), Fail> {
    assert!(rt; writes(rt.alloc(), Form::Bare, &BITS, BITS_LINES));
    Ok(())
}

/// Lists of u16, u32 and u64.
const PAIRS_AND_QUADS: [u8; 64] = [
    0x0, 0x0, 0x0, 0x0, 0x0, 0x0, 0x3, 0x0, 0x9, 0x0, 0x0, 0x0, 0xb, 0x0, 0x0, 0x0, 0x9, 0x0, 0x0,
    0x0, 0xc, 0x0, 0x0, 0x0, 0x9, 0x0, 0x0, 0x0, 0x15, 0x0, 0x0, 0x0, 0x7, 0x0, 0x0, 0x0, 0x0, 0x0,
    0x0, 0x0, 0x8, 0x0, 0x0, 0x0, 0x0, 0x0, 0x0, 0x0, 0x9, 0x0, 0x0, 0x0, 0x0, 0x0, 0x0, 0x0, 0xa,
    0x0, 0x0, 0x0, 0x0, 0x0, 0x0, 0x0,
];

/// The lines of `PAIRS_AND_QUADS`.
const PAIRS_AND_QUADS_LINES: &[u8] = b"\
0\t0:0\t0000000000000300\t1\tpointer\troot\tstruct of 0 words and 3 slots, offset 0, to 0:1\n\
8\t0:1\t090000000b000000\t1\tpointer\t0\tlist of 1 u16, offset 2, to 0:4\n\
16\t0:2\t090000000c000000\t1\tpointer\t1\tlist of 1 u32, offset 2, to 0:5\n\
24\t0:3\t0900000015000000\t1\tpointer\t2\tlist of 2 u64, offset 2, to 0:6\n\
32\t0:4\t0700000000000000\t1\tlist\t0\t1 u16, padding 6 bytes\n\
40\t0:5\t0800000000000000\t1\tlist\t1\t1 u32, padding 4 bytes\n\
48\t0:6-7\t0900000000000000..\t1\tlist\t2\t2 u64\n\
64\tend\t1 at 0 words 8 pointer 4 null 0 pad 0 tag 0 data 0 list 4 slack 0 unreached 0 \
shared 0 overlap 0 hidden 0 cut 0 canonical 8\n\
";

#[test]
fn pairs_and_quads(rt: HostRuntime) -> Result<(), Fail> {
    assert!(rt;
        writes(
            rt.alloc(),
            Form::Bare,
            &PAIRS_AND_QUADS,
            PAIRS_AND_QUADS_LINES
        )
    );
    Ok(())
}
