//! Tests of canonical bytes in each form, with just enough words of scratch, and with one fewer.

ghost use Rattle.std.specs.Prelude.{◌≤◌};

use capn_canon::{Form, Refusal, canonicalise};
use capn_pack::pack;
use capn_scratch::{FormRefusal, canonical_into_form};
use capn_walk::Limits;
use std::alloc::Global;
use std::test::Fail;

/// The greatest number of words of scratch that a test lends.
pub(crate) const MOST: usize = 192;

/// Returns a frame of `last + 1` segments. Its root is a struct of one word, by a landing pad in the last segment.
pub(crate) fn frame(alloc: Global, last: u8) -> Result<Vec<u8>, Fail> {
    let mut bytes = Vec::new(alloc);
    bytes.extend_from_slice(&(last as u32).to_le_bytes())?;
    for segment in 0..last {
        let words: u32 = if segment == 0 { 1 } else { 0 };
        bytes.extend_from_slice(&words.to_le_bytes())?;
    }
    bytes.extend_from_slice(&2u32.to_le_bytes())?;
    if last % 2 == 1 {
        bytes.extend_from_slice(&[0; 4])?;
    }
    let far = (last as u64) << 32 | 2;
    for word in [far, 0x1_0000_0000, 7] {
        bytes.extend_from_slice(&word.to_le_bytes())?;
    }
    Ok(bytes)
}

/// Returns the result of a call with `lent` words of scratch and a buffer of `room` bytes: the length, and the buffer.
fn answer(
    form: Form,
    bytes: &[u8],
    limits: Limits,
    lent: usize,
    room: usize,
) -> Result<(usize, [u8; 24]), FormRefusal>
    requires lent { lent ≤ 192 }
    requires room { room ≤ 24 }
{
    let mut scratch = [[0xaa; 8]; MOST];
    let mut out = [0xbb; 24];
    let written = canonical_into_form(form, bytes, limits, &mut scratch[..lent], &mut out[..room])?;
    Ok((written.length, out))
}

/// The canonical bytes of each frame, followed by the former content of the buffer.
pub(crate) const WRITTEN: [u8; 24] = [
    0, 0, 0, 0, 1, 0, 0, 0, 7, 0, 0, 0, 0, 0, 0, 0, 0xbb, 0xbb, 0xbb, 0xbb, 0xbb, 0xbb, 0xbb, 0xbb,
];

/// The indices of the last segments of frames with 2, 64, 65 and 66 segments, each with the words of scratch that its
/// table takes.
const FRAMES: [(u8, usize); 4] = [(1, 0), (63, 0), (64, 64), (65, 65)];

#[test]
fn a_frame_takes_a_word_for_each_of_many_ends(rt: HostRuntime) -> Result<(), Fail> {
    let limits = Limits::usual();
    for (last, need) in FRAMES {
        let bytes = frame(rt.alloc(), last)?;
        let canonical = canonicalise(rt.alloc(), Form::Stream, bytes.as_slice(), limits);
        let Ok(canonical) = canonical else {
            return Err(Fail::new("no canonical bytes"));
        };
        assert_eq!(rt; canonical.bytes.as_slice(), &WRITTEN[..16]);
        if need > MOST {
            return Err(Fail::new("too many words of scratch"));
        }
        let told = answer(Form::Stream, bytes.as_slice(), limits, need, 24);
        assert_eq!(rt; told, Ok((16, WRITTEN)));
        if need > 0 {
            let short = answer(Form::Stream, bytes.as_slice(), limits, need - 1, 24);
            assert_eq!(rt; short, Err(FormRefusal::NoScratch { needed: need }));
        }
    }
    Ok(())
}

#[test]
fn a_packed_frame_takes_its_words_and_those_of_its_table(rt: HostRuntime) -> Result<(), Fail> {
    let limits = Limits::usual();
    for (last, need) in FRAMES {
        let bytes = frame(rt.alloc(), last)?;
        let words = bytes.len() / 8;
        if need > MOST || words == 0 || words > MOST - need {
            return Err(Fail::new("too many words of scratch"));
        }
        let Ok(text) = pack(rt.alloc(), bytes.as_slice()) else {
            return Err(Fail::new("not packed"));
        };
        let told = answer(Form::Packed, text.as_slice(), limits, words + need, 24);
        assert_eq!(rt; told, Ok((16, WRITTEN)));
        let short = answer(Form::Packed, text.as_slice(), limits, words - 1, 24);
        assert_eq!(rt; short, Err(FormRefusal::NoScratch { needed: words }));
        if need > 0 {
            let few = answer(Form::Packed, text.as_slice(), limits, words + need - 1, 24);
            assert_eq!(rt;
                few,
                Err(FormRefusal::NoScratch {
                    needed: words + need
                })
            );
        }
    }
    Ok(())
}

#[test]
fn bare_words_take_none(rt: HostRuntime) {
    let limits = Limits::usual();
    let told = answer(Form::Bare, &WRITTEN[..16], limits, 0, 24);
    assert_eq!(rt; told, Ok((16, WRITTEN)));
    let short = answer(Form::Bare, &WRITTEN[..16], limits, 0, 15);
    assert_eq!(rt;
        short,
        Err(FormRefusal::NoRoom {
            needed: 16,
            paid: 2
        })
    );
}

/// A capability at the root.
const CAPABILITY: [u8; 8] = [3, 0, 0, 0, 5, 0, 0, 0];

/// A frame of one segment with a capability, and 8 bytes after it.
const TRAILED: [u8; 24] = [
    0, 0, 0, 0, 1, 0, 0, 0, 3, 0, 0, 0, 5, 0, 0, 0, 0, 0, 0, 0, 0, 0, 0, 0,
];

/// The cut packed bytes of a word, and the packed bytes of 2,304 zero words.
const PACKED: [&[u8]; 2] = [
    &[0x51, 8, 3],
    &[
        0, 255, 0, 255, 0, 255, 0, 255, 0, 255, 0, 255, 0, 255, 0, 255, 0, 255,
    ],
];

/// `canonical_into_form` refuses what `canonicalise` refuses, and leaves the buffer unchanged.
#[test]
fn refusals_are_those_of_other_calls(rt: HostRuntime) {
    let limits = Limits::usual();
    let small = Limits::new(1, 8, 1).unwrap_or(limits);
    let cases: [(Form, &[u8], Limits); 9] = [
        (Form::Bare, &CAPABILITY[..7], limits),
        (Form::Bare, &CAPABILITY, limits),
        (Form::Bare, &[0, 0, 0, 0, 1, 0, 0, 0], limits),
        (Form::Stream, &[], limits),
        (Form::Stream, &TRAILED[..15], limits),
        (Form::Stream, &TRAILED, limits),
        (Form::Stream, &TRAILED[..16], limits),
        (Form::Packed, PACKED[0], small),
        (Form::Packed, PACKED[1], small),
    ];
    for (form, bytes, limits) in cases {
        let mut out = [0xbb; 24];
        let mut scratch = [[0; 8]; MOST];
        let told = canonical_into_form(form, bytes, limits, &mut scratch, &mut out);
        let other = match canonicalise(rt.alloc(), form, bytes, limits) {
            Ok(_) => None,
            Err(Refusal::Bare(fault)) => Some(FormRefusal::Bare(fault)),
            Err(Refusal::Packed(fault)) => Some(FormRefusal::Packed(fault)),
            Err(Refusal::Frame(fault)) => Some(FormRefusal::Frame(fault)),
            Err(Refusal::Trailing(at)) => Some(FormRefusal::Trailing(at)),
            Err(Refusal::Walk(stopped)) => Some(FormRefusal::Walk(stopped)),
            Err(Refusal::Capability(index)) => Some(FormRefusal::Capability(index)),
            Err(Refusal::Memory) => None,
        };
        assert!(rt; other.is_some() && told.err() == other);
        assert_eq!(rt; out, [0xbb; 24]);
    }
}

/// A fault of the packing is reported before too little scratch, and too little scratch before a fault of the frame.
#[test]
fn refusals_come_in_order(rt: HostRuntime) {
    let limits = Limits::usual();
    let cut = answer(Form::Packed, &[0, 3, 0x51, 8], limits, 0, 24);
    assert!(rt; matches!(cut, Err(FormRefusal::Packed(_))));
    let short = answer(
        Form::Packed,
        &[255, 1, 2, 3, 4, 5, 6, 7, 8, 0],
        limits,
        0,
        24,
    );
    assert_eq!(rt; short, Err(FormRefusal::NoScratch { needed: 1 }));
    let unread = answer(
        Form::Packed,
        &[255, 1, 2, 3, 4, 5, 6, 7, 8, 0],
        limits,
        1,
        24,
    );
    assert!(rt; matches!(unread, Err(FormRefusal::Frame(_))));
}
