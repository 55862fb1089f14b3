//! Messages of every kind of line, with the lines that an implementation of the page in another language writes.

use crate::run::writes;
use capn_canon::Form;
use std::test::Fail;

/// A stream of two messages. The second begins where the first ends.
const TWO_MESSAGES: [u8; 80] = [
    0x0, 0x0, 0x0, 0x0, 0x4, 0x0, 0x0, 0x0, 0x0, 0x0, 0x0, 0x0, 0x1, 0x0, 0x1, 0x0, 0x5, 0x0, 0x0,
    0x0, 0x0, 0x0, 0x0, 0x0, 0x1, 0x0, 0x0, 0x0, 0x1a, 0x0, 0x0, 0x0, 0x61, 0x62, 0x0, 0x0, 0x0,
    0x0, 0x0, 0x0, 0x0, 0x0, 0x0, 0x0, 0x4, 0x0, 0x0, 0x0, 0x0, 0x0, 0x0, 0x0, 0x1, 0x0, 0x1, 0x0,
    0x5, 0x0, 0x0, 0x0, 0x0, 0x0, 0x0, 0x0, 0x1, 0x0, 0x0, 0x0, 0x1a, 0x0, 0x0, 0x0, 0x61, 0x62,
    0x0, 0x0, 0x0, 0x0, 0x0, 0x0,
];

/// The lines of `TWO_MESSAGES`.
const TWO_MESSAGES_LINES: &[u8] = b"\
0\t-\t0000000004000000\t1\ttable\t\t1 of 4 words\n\
8\t0:0\t0000000001000100\t1\tpointer\troot\tstruct of 1 words and 1 slots, offset 0, to 0:1\n\
16\t0:1\t0500000000000000\t1\tdata\troot\t1 words\n\
24\t0:2\t010000001a000000\t1\tpointer\t0\tlist of 3 bytes, offset 0, to 0:3\n\
32\t0:3\t6162000000000000\t1\tlist\t0\t3 bytes \"ab\\0\", padding 5 bytes\n\
40\tend\t1 at 0 words 4 pointer 2 null 0 pad 0 tag 0 data 1 list 1 slack 0 unreached 0 \
shared 0 overlap 0 hidden 0 cut 0 canonical 4\n\
40\t-\t0000000004000000\t1\ttable\t\t1 of 4 words\n\
48\t0:0\t0000000001000100\t1\tpointer\troot\tstruct of 1 words and 1 slots, offset 0, to 0:1\n\
56\t0:1\t0500000000000000\t1\tdata\troot\t1 words\n\
64\t0:2\t010000001a000000\t1\tpointer\t0\tlist of 3 bytes, offset 0, to 0:3\n\
72\t0:3\t6162000000000000\t1\tlist\t0\t3 bytes \"ab\\0\", padding 5 bytes\n\
80\tend\t2 at 40 words 4 pointer 2 null 0 pad 0 tag 0 data 1 list 1 slack 0 unreached 0 \
shared 0 overlap 0 hidden 0 cut 0 canonical 4\n\
";

#[test]
fn two_messages(rt: HostRuntime) -> Result<(), Fail> {
    assert!(rt; writes(rt.alloc(), Form::Stream, &TWO_MESSAGES, TWO_MESSAGES_LINES));
    Ok(())
}

/// A table of two segments, whose padding is not zero.
const PADDED_TABLE: [u8; 32] = [
    0x1, 0x0, 0x0, 0x0, 0x1, 0x0, 0x0, 0x0, 0x1, 0x0, 0x0, 0x0, 0x9, 0x0, 0x0, 0x0, 0x0, 0x0, 0x0,
    0x0, 0x0, 0x0, 0x0, 0x0, 0x7, 0x0, 0x0, 0x0, 0x0, 0x0, 0x0, 0x0,
];

/// The lines of `PADDED_TABLE`.
const PADDED_TABLE_LINES: &[u8] = b"\
0\t-\t0100000001000000..\t1\ttable\t\t2 of 2 words: 1, 1, padding not zero\n\
16\t0:0\t0000000000000000\t1\tnull\troot\t1 slots\n\
24\t1:0\t0700000000000000\t0\tunreached\t\t1 words, 1 not zero\n\
32\tend\t1 at 0 words 2 pointer 0 null 1 pad 0 tag 0 data 0 list 0 slack 0 unreached 1 \
shared 0 overlap 0 hidden 1 cut 0 canonical 1\n\
";

#[test]
fn padded_table(rt: HostRuntime) -> Result<(), Fail> {
    assert!(rt; writes(rt.alloc(), Form::Stream, &PADDED_TABLE, PADDED_TABLE_LINES));
    Ok(())
}

/// A slot that leads through a landing pad of two words.
const DOUBLE_FAR: [u8; 48] = [
    0x2, 0x0, 0x0, 0x0, 0x1, 0x0, 0x0, 0x0, 0x2, 0x0, 0x0, 0x0, 0x1, 0x0, 0x0, 0x0, 0x6, 0x0, 0x0,
    0x0, 0x1, 0x0, 0x0, 0x0, 0x2, 0x0, 0x0, 0x0, 0x2, 0x0, 0x0, 0x0, 0x0, 0x0, 0x0, 0x0, 0x1, 0x0,
    0x0, 0x0, 0x8, 0x0, 0x0, 0x0, 0x0, 0x0, 0x0, 0x0,
];

/// The lines of `DOUBLE_FAR`.
const DOUBLE_FAR_LINES: &[u8] = b"\
0\t-\t0200000001000000..\t1\ttable\t\t3 of 4 words: 1, 2, 1\n\
16\t0:0\t0600000001000000\t1\tpointer\troot\tdouble far to segment 1 word 0\n\
24\t1:0\t0200000002000000\t1\tpad\troot\tfar to segment 2 word 0\n\
32\t1:1\t0000000001000000\t1\tpad\troot\tstruct of 1 words and 0 slots, offset 0\n\
40\t2:0\t0800000000000000\t1\tdata\troot\t1 words\n\
48\tend\t1 at 0 words 4 pointer 1 null 0 pad 2 tag 0 data 1 list 0 slack 0 unreached 0 \
shared 0 overlap 0 hidden 0 cut 0 canonical 2\n\
";

#[test]
fn double_far(rt: HostRuntime) -> Result<(), Fail> {
    assert!(rt; writes(rt.alloc(), Form::Stream, &DOUBLE_FAR, DOUBLE_FAR_LINES));
    Ok(())
}

/// A struct whose slot is a capability, so that there are no canonical bytes.
const CAPABILITY: [u8; 16] = [
    0x0, 0x0, 0x0, 0x0, 0x0, 0x0, 0x1, 0x0, 0x3, 0x0, 0x0, 0x0, 0x3, 0x0, 0x0, 0x0,
];

/// The lines of `CAPABILITY`.
const CAPABILITY_LINES: &[u8] = b"\
0\t0:0\t0000000000000100\t1\tpointer\troot\tstruct of 0 words and 1 slots, offset 0, to 0:1\n\
8\t0:1\t0300000003000000\t1\tpointer\t0\tcapability 3\n\
16\tend\t1 at 0 words 2 pointer 2 null 0 pad 0 tag 0 data 0 list 0 slack 0 unreached 0 \
shared 0 overlap 0 hidden 0 cut 0 canonical -\n\
";

#[test]
fn capability(rt: HostRuntime) -> Result<(), Fail> {
    assert!(rt; writes(rt.alloc(), Form::Bare, &CAPABILITY, CAPABILITY_LINES));
    Ok(())
}

/// A list of pointers, all null.
const POINTERS: [u8; 40] = [
    0x0, 0x0, 0x0, 0x0, 0x0, 0x0, 0x1, 0x0, 0x1, 0x0, 0x0, 0x0, 0x1e, 0x0, 0x0, 0x0, 0x0, 0x0, 0x0,
    0x0, 0x0, 0x0, 0x0, 0x0, 0x0, 0x0, 0x0, 0x0, 0x0, 0x0, 0x0, 0x0, 0x0, 0x0, 0x0, 0x0, 0x0, 0x0,
    0x0, 0x0,
];

/// The lines of `POINTERS`.
const POINTERS_LINES: &[u8] = b"\
0\t0:0\t0000000000000100\t1\tpointer\troot\tstruct of 0 words and 1 slots, offset 0, to 0:1\n\
8\t0:1\t010000001e000000\t1\tpointer\t0\tlist of 3 pointers, offset 0, to 0:2\n\
16\t0:2-4\t0000000000000000..\t1\tnull\t0.0\t3 slots\n\
40\tend\t1 at 0 words 5 pointer 2 null 3 pad 0 tag 0 data 0 list 0 slack 0 unreached 0 \
shared 0 overlap 0 hidden 0 cut 0 canonical 5\n\
";

#[test]
fn pointers(rt: HostRuntime) -> Result<(), Fail> {
    assert!(rt; writes(rt.alloc(), Form::Bare, &POINTERS, POINTERS_LINES));
    Ok(())
}

/// Two rows of a word and a slot each.
const ROWS: [u8; 72] = [
    0x0, 0x0, 0x0, 0x0, 0x0, 0x0, 0x1, 0x0, 0x1, 0x0, 0x0, 0x0, 0x27, 0x0, 0x0, 0x0, 0x8, 0x0, 0x0,
    0x0, 0x1, 0x0, 0x1, 0x0, 0x1, 0x0, 0x0, 0x0, 0x0, 0x0, 0x0, 0x0, 0x9, 0x0, 0x0, 0x0, 0x12, 0x0,
    0x0, 0x0, 0x2, 0x0, 0x0, 0x0, 0x0, 0x0, 0x0, 0x0, 0x5, 0x0, 0x0, 0x0, 0x12, 0x0, 0x0, 0x0,
    0x61, 0x0, 0x0, 0x0, 0x0, 0x0, 0x0, 0x0, 0x62, 0x0, 0x0, 0x0, 0x0, 0x0, 0x0, 0x0,
];

/// The lines of `ROWS`.
const ROWS_LINES: &[u8] = b"\
0\t0:0\t0000000000000100\t1\tpointer\troot\tstruct of 0 words and 1 slots, offset 0, to 0:1\n\
8\t0:1\t0100000027000000\t1\tpointer\t0\tlist of structs in 4 words, offset 0, to 0:2\n\
16\t0:2\t0800000001000100\t1\ttag\t0\ttag of 2 structs of 1 words and 1 slots\n\
24\t0:3\t0100000000000000\t1\tdata\t0.0\t1 words\n\
32\t0:4\t0900000012000000\t1\tpointer\t0.0.0\tlist of 2 bytes, offset 2, to 0:7\n\
40\t0:5\t0200000000000000\t1\tdata\t0.1\t1 words\n\
48\t0:6\t0500000012000000\t1\tpointer\t0.1.0\tlist of 2 bytes, offset 1, to 0:8\n\
56\t0:7\t6100000000000000\t1\tlist\t0.0.0\t2 bytes \"a\\0\", padding 6 bytes\n\
64\t0:8\t6200000000000000\t1\tlist\t0.1.0\t2 bytes \"b\\0\", padding 6 bytes\n\
72\tend\t1 at 0 words 9 pointer 4 null 0 pad 0 tag 1 data 2 list 2 slack 0 unreached 0 \
shared 0 overlap 0 hidden 0 cut 0 canonical 9\n\
";

#[test]
fn rows(rt: HostRuntime) -> Result<(), Fail> {
    assert!(rt; writes(rt.alloc(), Form::Bare, &ROWS, ROWS_LINES));
    Ok(())
}

/// A root that is a struct of nothing.
const EMPTY_STRUCT: [u8; 8] = [0xfc, 0xff, 0xff, 0xff, 0x0, 0x0, 0x0, 0x0];

/// The lines of `EMPTY_STRUCT`.
const EMPTY_STRUCT_LINES: &[u8] = b"\
0\t0:0\tfcffffff00000000\t1\tpointer\troot\tstruct of 0 words and 0 slots, offset -1, to 0:0\n\
8\tend\t1 at 0 words 1 pointer 1 null 0 pad 0 tag 0 data 0 list 0 slack 0 unreached 0 \
shared 0 overlap 0 hidden 0 cut 0 canonical 1\n\
";

#[test]
fn empty_struct(rt: HostRuntime) -> Result<(), Fail> {
    assert!(rt; writes(rt.alloc(), Form::Bare, &EMPTY_STRUCT, EMPTY_STRUCT_LINES));
    Ok(())
}

/// A root that is null, and words behind it.
const NULL_ROOT: [u8; 32] = [
    0x0, 0x0, 0x0, 0x0, 0x0, 0x0, 0x0, 0x0, 0x1, 0x0, 0x0, 0x0, 0x0, 0x0, 0x0, 0x0, 0x0, 0x0, 0x0,
    0x0, 0x0, 0x0, 0x0, 0x0, 0x2, 0x0, 0x0, 0x0, 0x0, 0x0, 0x0, 0x0,
];

/// The lines of `NULL_ROOT`.
const NULL_ROOT_LINES: &[u8] = b"\
0\t0:0\t0000000000000000\t1\tnull\troot\t1 slots\n\
8\t0:1-3\t0100000000000000..\t0\tunreached\t\t3 words, 2 not zero\n\
32\tend\t1 at 0 words 4 pointer 0 null 1 pad 0 tag 0 data 0 list 0 slack 0 unreached 3 \
shared 0 overlap 0 hidden 2 cut 0 canonical 1\n\
";

#[test]
fn null_root(rt: HostRuntime) -> Result<(), Fail> {
    assert!(rt; writes(rt.alloc(), Form::Bare, &NULL_ROOT, NULL_ROOT_LINES));
    Ok(())
}

/// A slot that belongs to one object, and is visited through another one first.
const SLOT_IN_TWO_OBJECTS: [u8; 32] = [
    0x0, 0x0, 0x0, 0x0, 0x0, 0x0, 0x2, 0x0, 0x0, 0x0, 0x0, 0x0, 0x0, 0x0, 0x1, 0x0, 0x0, 0x0, 0x0,
    0x0, 0x1, 0x0, 0x0, 0x0, 0x5, 0x0, 0x0, 0x0, 0x0, 0x0, 0x0, 0x0,
];

/// The lines of `SLOT_IN_TWO_OBJECTS`.
const SLOT_IN_TWO_OBJECTS_LINES: &[u8] = b"\
0\t0:0\t0000000000000200\t1\tpointer\troot\tstruct of 0 words and 2 slots, offset 0, to 0:1\n\
8\t0:1\t0000000000000100\t1\tpointer\t0\tstruct of 0 words and 1 slots, offset 0, to 0:2\n\
16\t0:2\t0000000001000000\t2\tpointer\t1\tstruct of 1 words and 0 slots, offset 0, to 0:3, overlap\n\
24\t0:3\t0500000000000000\t2\tdata\t0.0\t1 words\n\
32\tend\t1 at 0 words 4 pointer 3 null 0 pad 0 tag 0 data 1 list 0 slack 0 unreached 0 \
shared 2 overlap 1 hidden 0 cut 0 canonical 6\n\
";

#[test]
fn slot_in_two_objects(rt: HostRuntime) -> Result<(), Fail> {
    assert!(rt;
        writes(
            rt.alloc(),
            Form::Bare,
            &SLOT_IN_TWO_OBJECTS,
            SLOT_IN_TWO_OBJECTS_LINES
        )
    );
    Ok(())
}
