//! Tests of indexes of messages, some of which are written into a room that is too short.

use crate::words::bytes_of;
use capn_walk::{
    Entry, EntryForm, Fault, Indexed, Kind, Limits, Stopped, index, index_into, index_into_form,
};
use capn_words::{Bare, Place};
use std::alloc::Global;
use std::test::Fail;

/// The entry of a null pointer.
const NULL: Entry = Entry {
    start: 0,
    segment: 0,
    count: 0,
    span: 1,
    words: 0,
    slots: 0,
    kind: Kind::Nil,
};

/// The content of an entry before a call.
const BLANK: Entry = Entry {
    start: 99,
    segment: 98,
    count: 97,
    span: 96,
    words: 95,
    slots: 94,
    kind: Kind::Cap,
};

/// A struct whose slot has three bytes.
const BYTES: [u64; 3] = [0x1_0000_0000_0000, 0x1a_0000_0001, 0x63_6261];

const BYTES_INDEX: [Entry; 2] = [
    Entry {
        start: 1,
        words: 0,
        slots: 1,
        span: 2,
        kind: Kind::Node,
        ..NULL
    },
    Entry {
        start: 2,
        count: 3,
        kind: Kind::Bytes,
        ..NULL
    },
];

/// A struct whose slot has two rows of one slot each. The first of these slots is null, and the second points to an
/// empty struct.
const ROWS: [u64; 5] = [
    0x1_0000_0000_0000,
    0x17_0000_0001,
    0x1_0000_0000_0008,
    0,
    0xffff_fffc,
];

const ROWS_INDEX: [Entry; 4] = [
    Entry {
        start: 1,
        words: 0,
        slots: 1,
        span: 4,
        kind: Kind::Node,
        ..NULL
    },
    Entry {
        start: 2,
        count: 2,
        slots: 1,
        span: 3,
        kind: Kind::Rows,
        ..NULL
    },
    NULL,
    Entry {
        start: 4,
        words: 0,
        slots: 0,
        span: 1,
        kind: Kind::Node,
        ..NULL
    },
];

/// A struct whose two slots point to the same struct, which has an entry for each slot.
const SHARED: [u64; 4] = [0x2_0000_0000_0000, 0x1_0000_0004, 0x1_0000_0000, 9];

const SHARED_INDEX: [Entry; 3] = [
    Entry {
        start: 1,
        words: 0,
        slots: 2,
        span: 3,
        kind: Kind::Node,
        ..NULL
    },
    Entry {
        start: 3,
        words: 1,
        slots: 0,
        span: 1,
        kind: Kind::Node,
        ..NULL
    },
    Entry {
        start: 3,
        words: 1,
        slots: 0,
        span: 1,
        kind: Kind::Node,
        ..NULL
    },
];

/// A room in which no entry has been written.
const ROOM: [Entry; 6] = [BLANK; 6];

/// Returns the result of indexing a message into `room`.
fn put(bytes: &[u8], limits: Limits, room: &mut [Entry]) -> Option<Result<Indexed, Stopped>> {
    let bare = Bare::new(bytes).ok()?;
    Some(index_into(&bare, limits, room))
}

/// Tests the index of a message in a room of `most` entries. The entries of `want` for which there is room must be
/// written, and nothing after them. The result must be `told`.
fn is_put(bytes: &[u8], want: &[Entry], told: Indexed, most: usize) -> bool {
    let mut room = ROOM;
    let most = most.min(6);
    let is_told = put(bytes, Limits::usual(), &mut room[..most]) == Some(Ok(told));
    let filled = most.min(want.len()).min(6);
    is_told && room[..filled] == want[..filled] && room[filled..] == ROOM[filled..]
}

/// Tests whether `index` and `index_into` give the entries `want` for a message. Some of the rooms for `index_into` are
/// too short.
fn is_indexed(alloc: Global, words: &[u64], want: &[Entry], paid: u32) -> Result<bool, Fail> {
    let bytes = bytes_of(alloc, words)?;
    let told = Indexed {
        paid,
        visits: u32::try_from(want.len()).unwrap_or(0),
    };
    for most in 0..=6usize {
        if !is_put(bytes.as_slice(), want, told, most) {
            return Ok(false);
        }
    }
    let Ok(bare) = Bare::new(bytes.as_slice()) else {
        return Ok(false);
    };
    match index(alloc, &bare, Limits::usual()) {
        Ok(index) => Ok(index.paid == paid && index.entries.as_slice() == want),
        Err(_) => Ok(false),
    }
}

#[test]
fn each_entry_of_a_message(rt: HostRuntime) -> Result<(), Fail> {
    assert!(rt; is_indexed(rt.alloc(), &[0], &[NULL], 0)?);
    assert!(rt; is_indexed(rt.alloc(), &BYTES, &BYTES_INDEX, 4)?);
    assert!(rt; is_indexed(rt.alloc(), &ROWS, &ROWS_INDEX, 7)?);
    assert!(rt; is_indexed(rt.alloc(), &SHARED, &SHARED_INDEX, 7)?);
    Ok(())
}

/// The format of an index that keeps only the span of each entry.
pub(crate) struct Spans;

impl EntryForm for Spans {
    type Item = u32;

    ghost written = { λ _ e. e.span };

    fn put(&self, room: &mut [u32], at: u32, entry: Entry) {
        let at = at as usize;
        if at < room.len() {
            room[at] = entry.span;
        }
    }

    fn set_span(&self, room: &mut [u32], at: u32, span: u32) {
        let at = at as usize;
        if at < room.len() {
            room[at] = span;
        }
    }
}

#[test]
fn an_index_in_another_form(rt: HostRuntime) -> Result<(), Fail> {
    let bytes = bytes_of(rt.alloc(), &ROWS)?;
    let Ok(bare) = Bare::new(bytes.as_slice()) else {
        return Err(Fail::new("no words"));
    };
    for most in 0..=6usize {
        let mut room = [96u32; 6];
        let told = index_into_form(&bare, Limits::usual(), &Spans, &mut room[..most]);
        assert!(rt; told == Ok(Indexed { paid: 7, visits: 4 }));
        let filled = most.min(4);
        assert!(rt; room[..filled] == [4u32, 3, 1, 1][..filled]);
        assert!(rt; room[filled..] == [96u32; 6][filled..]);
    }
    Ok(())
}

/// The stop of an index of `ROWS` with a budget of six words. The stop is at the struct in the last slot.
const STOPPED: Stopped = Stopped {
    fault: Fault::OverBudget,
    place: Place {
        segment: 0,
        word: 4,
    },
    paid: 6,
    visits: 4,
};

#[test]
fn a_refusal_of_a_walk(rt: HostRuntime) -> Result<(), Fail> {
    let limits = Limits::new(1, 6, 64).unwrap_or(Limits::usual());
    let bytes = bytes_of(rt.alloc(), &ROWS)?;
    for most in [0, 3, 6usize] {
        let mut room = ROOM;
        let told = put(bytes.as_slice(), limits, &mut room[..most]);
        assert!(rt; told == Some(Err(STOPPED)));
    }
    let Ok(bare) = Bare::new(bytes.as_slice()) else {
        return Err(Fail::new("no words"));
    };
    let told = index(rt.alloc(), &bare, limits);
    assert!(rt; matches!(told, Err(stopped) if stopped == STOPPED));
    Ok(())
}
