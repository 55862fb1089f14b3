//! Four worked messages, with the lines that `annotate` writes for them.

use crate::run::writes;
use capn_canon::Form;
use std::test::Fail;

/// The message of a number and a text.
const INVOICE: [u8; 40] = [
    0x0, 0x0, 0x0, 0x0, 0x4, 0x0, 0x0, 0x0, 0x0, 0x0, 0x0, 0x0, 0x1, 0x0, 0x1, 0x0, 0x5, 0x0, 0x0,
    0x0, 0x0, 0x0, 0x0, 0x0, 0x1, 0x0, 0x0, 0x0, 0x1a, 0x0, 0x0, 0x0, 0x61, 0x62, 0x0, 0x0, 0x0,
    0x0, 0x0, 0x0,
];

/// The lines of `INVOICE`.
const INVOICE_LINES: &[u8] = b"\
0\t-\t0000000004000000\t1\ttable\t\t1 of 4 words\n\
8\t0:0\t0000000001000100\t1\tpointer\troot\tstruct of 1 words and 1 slots, offset 0, to 0:1\n\
16\t0:1\t0500000000000000\t1\tdata\troot\t1 words\n\
24\t0:2\t010000001a000000\t1\tpointer\t0\tlist of 3 bytes, offset 0, to 0:3\n\
32\t0:3\t6162000000000000\t1\tlist\t0\t3 bytes \"ab\\0\", padding 5 bytes\n\
40\tend\t1 at 0 words 4 pointer 2 null 0 pad 0 tag 0 data 1 list 1 slack 0 unreached 0 \
shared 0 overlap 0 hidden 0 cut 0 canonical 4\n\
";

#[test]
fn invoice(rt: HostRuntime) -> Result<(), Fail> {
    assert!(rt; writes(rt.alloc(), Form::Stream, &INVOICE, INVOICE_LINES));
    Ok(())
}

/// A text that was set twice. No pointer reaches the first one.
const SET_TWICE: [u8; 32] = [
    0x0, 0x0, 0x0, 0x0, 0x0, 0x0, 0x1, 0x0, 0x5, 0x0, 0x0, 0x0, 0x32, 0x0, 0x0, 0x0, 0x41, 0x64,
    0x61, 0x0, 0x0, 0x0, 0x0, 0x0, 0x47, 0x72, 0x61, 0x63, 0x65, 0x0, 0x0, 0x0,
];

/// The lines of `SET_TWICE`.
const SET_TWICE_LINES: &[u8] = b"\
0\t0:0\t0000000000000100\t1\tpointer\troot\tstruct of 0 words and 1 slots, offset 0, to 0:1\n\
8\t0:1\t0500000032000000\t1\tpointer\t0\tlist of 6 bytes, offset 1, to 0:3\n\
16\t0:2\t4164610000000000\t0\tunreached\t\t1 words, 1 not zero\n\
24\t0:3\t4772616365000000\t1\tlist\t0\t6 bytes \"Grace\\0\", padding 2 bytes\n\
32\tend\t1 at 0 words 4 pointer 2 null 0 pad 0 tag 0 data 0 list 1 slack 0 unreached 1 \
shared 0 overlap 0 hidden 1 cut 0 canonical 3\n\
";

#[test]
fn set_twice(rt: HostRuntime) -> Result<(), Fail> {
    assert!(rt; writes(rt.alloc(), Form::Bare, &SET_TWICE, SET_TWICE_LINES));
    Ok(())
}

/// A landing pad, a text that two pointers share, and a word and a slot that canonical bytes leave out.
const SHARED_TEXT: [u8; 24] = [
    0x11, 0x1, 0x1, 0x1, 0x6, 0x11, 0x2, 0x1, 0x50, 0x1, 0x3, 0x0, 0x0, 0x11, 0x9, 0x1a, 0x11, 0x5,
    0x1a, 0x0, 0x0, 0x3, 0x68, 0x69,
];

/// The lines of `SHARED_TEXT`.
const SHARED_TEXT_LINES: &[u8] = b"\
0\t-\t0100000001000000..\t1\ttable\t\t2 of 7 words: 1, 6\n\
16\t0:0\t0200000001000000\t1\tpointer\troot\tfar to segment 1 word 0\n\
24\t1:0\t0000000001000300\t1\tpad\troot\tstruct of 1 words and 3 slots, offset 0, to 1:1\n\
32\t1:1\t0000000000000000\t1\tdata\troot\t1 words, 1 cut\n\
40\t1:2\t090000001a000000\t1\tpointer\t0\tlist of 3 bytes, offset 2, to 1:5\n\
48\t1:3\t050000001a000000\t1\tpointer\t1\tlist of 3 bytes, offset 1, to 1:5\n\
56\t1:4\t0000000000000000\t1\tnull\t2\t1 slots, 1 cut\n\
64\t1:5\t6869000000000000\t2\tlist\t0\t3 bytes \"hi\\0\", padding 5 bytes\n\
72\tend\t1 at 0 words 7 pointer 3 null 1 pad 1 tag 0 data 1 list 1 slack 0 unreached 0 \
shared 1 overlap 0 hidden 0 cut 2 canonical 5\n\
";

#[test]
fn shared_text(rt: HostRuntime) -> Result<(), Fail> {
    assert!(rt; writes(rt.alloc(), Form::Packed, &SHARED_TEXT, SHARED_TEXT_LINES));
    Ok(())
}

/// Two rows, of which the second is also a list of numbers, and a word behind the rows.
const OVERLAPPING_ROWS: [u8; 56] = [
    0x0, 0x0, 0x0, 0x0, 0x0, 0x0, 0x2, 0x0, 0x5, 0x0, 0x0, 0x0, 0x1f, 0x0, 0x0, 0x0, 0x9, 0x0, 0x0,
    0x0, 0x14, 0x0, 0x0, 0x0, 0x8, 0x0, 0x0, 0x0, 0x1, 0x0, 0x0, 0x0, 0x7, 0x0, 0x0, 0x0, 0x0, 0x0,
    0x0, 0x0, 0x9, 0x0, 0x0, 0x0, 0x0, 0x0, 0x0, 0x0, 0xff, 0xff, 0xff, 0xff, 0xff, 0xff, 0xff,
    0xff,
];

/// The lines of `OVERLAPPING_ROWS`.
const OVERLAPPING_ROWS_LINES: &[u8] = b"\
0\t0:0\t0000000000000200\t1\tpointer\troot\tstruct of 0 words and 2 slots, offset 0, to 0:1\n\
8\t0:1\t050000001f000000\t1\tpointer\t0\tlist of structs in 3 words, offset 1, to 0:3\n\
16\t0:2\t0900000014000000\t1\tpointer\t1\tlist of 2 u32, offset 2, to 0:5\n\
24\t0:3\t0800000001000000\t1\ttag\t0\ttag of 2 structs of 1 words and 0 slots\n\
32\t0:4\t0700000000000000\t1\tdata\t0.0\t1 words\n\
40\t0:5\t0900000000000000\t2\tdata\t0.1\t1 words, overlap\n\
48\t0:6\tffffffffffffffff\t1\tslack\t0\t1 words, 1 not zero\n\
56\tend\t1 at 0 words 7 pointer 3 null 0 pad 0 tag 1 data 2 list 0 slack 1 unreached 0 \
shared 1 overlap 1 hidden 1 cut 0 canonical 7\n\
";

#[test]
fn overlapping_rows(rt: HostRuntime) -> Result<(), Fail> {
    assert!(rt;
        writes(
            rt.alloc(),
            Form::Bare,
            &OVERLAPPING_ROWS,
            OVERLAPPING_ROWS_LINES
        )
    );
    Ok(())
}
