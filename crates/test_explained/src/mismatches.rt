//! Tests of the mismatches of messages with their canonical bytes.

use crate::words::bytes_of;
use capn_canon::Refusal;
use capn_mismatch::{Mismatch, Whose, mismatch};
use capn_stream::first;
use capn_walk::{Fault, Limits};
use capn_words::Bare;
use std::alloc::Global;
use std::test::Fail;

/// The part of a message to which a word belongs.
#[derive(Clone, Copy, PartialEq, Eq)]
enum Owner {
    /// The pointer of a slot.
    Pointer,
    /// The tag word of a list of structs.
    Tag,
    /// The last word of a list.
    LastWord,
}

/// Returns the mismatch of the bare message `words` with its canonical bytes, within the default limits.
fn told(alloc: Global, words: &[u64]) -> Result<Mismatch, Fail> {
    let bytes = bytes_of(alloc, words)?;
    let Ok(bare) = Bare::new(bytes.as_slice()) else {
        return Err(Fail::new("no words"));
    };
    match mismatch(alloc, &bare, Limits::usual()) {
        Ok(found) => Ok(found),
        Err(_) => Err(Fail::new("refused")),
    }
}

/// Tests whether a message first differs from its canonical bytes in the word `at`. That word and the canonical one are
/// in `both`. The word belongs to the `owner` at `path`.
fn leaves(
    alloc: Global,
    words: &[u64],
    at: u32,
    both: (u64, u64),
    owner: Owner,
    path: &[u32],
) -> Result<bool, Fail> {
    let Mismatch::Word {
        word,
        is,
        canonical,
        whose,
    } = told(alloc, words)?
    else {
        return Ok(false);
    };
    if word != at || (is, canonical) != both {
        return Ok(false);
    }
    match whose {
        Whose::Pointer(found) => Ok(owner == Owner::Pointer && found.as_slice() == path),
        Whose::Tag(found) => Ok(owner == Owner::Tag && found.as_slice() == path),
        Whose::LastWord(found) => Ok(owner == Owner::LastWord && found.as_slice() == path),
    }
}

/// A struct of one word and a null root are canonical.
#[test]
fn canonical_messages(rt: HostRuntime) -> Result<(), Fail> {
    let found = told(rt.alloc(), &[0x1_0000_0000, 5])?;
    assert!(rt; matches!(found, Mismatch::Canonical));
    let found = told(rt.alloc(), &[0])?;
    assert!(rt; matches!(found, Mismatch::Canonical));
    Ok(())
}

/// A word that a builder left after the value is found.
#[test]
fn a_word_after_the_value(rt: HostRuntime) -> Result<(), Fail> {
    let found = told(rt.alloc(), &[0x1_0000_0000, 5, 7, 8])?;
    assert!(rt; matches!(found, Mismatch::After { word: 2, is: 7 }));
    Ok(())
}

/// Pointers differ for four reasons: a zero word at the end of the root, objects in another order than their slots, an
/// empty struct that is not at its own slot, and rows that share an object.
#[test]
fn pointers_that_differ(rt: HostRuntime) -> Result<(), Fail> {
    let zero = [0x2_0000_0000, 5, 0];
    let both = (0x2_0000_0000, 0x1_0000_0000);
    assert!(rt; leaves(rt.alloc(), &zero, 0, both, Owner::Pointer, &[])?);
    let turned = [0x2_0000_0000_0000, 0x1_0000_0008, 0x1_0000_0000, 6, 5];
    let both = (0x1_0000_0008, 0x1_0000_0004);
    assert!(rt; leaves(rt.alloc(), &turned, 1, both, Owner::Pointer, &[0])?);
    let empty = [0x1_0000_0000_0000, 4, 0];
    assert!(rt;
        leaves(
            rt.alloc(),
            &empty,
            1,
            (4, 0xffff_fffc),
            Owner::Pointer,
            &[0]
        )?
    );
    let shared = [
        0x1_0000_0000_0000,
        0x17_0000_0001,
        0x1_0000_0000_0008,
        0x1_0000_0004,
        0x1_0000_0000,
        9,
    ];
    let both = (0x1_0000_0000, 0x1_0000_0004);
    assert!(rt; leaves(rt.alloc(), &shared, 4, both, Owner::Pointer, &[0, 1, 0])?);
    Ok(())
}

/// The tag word of a list without rows differs if it has sizes.
#[test]
fn a_tag_that_differs(rt: HostRuntime) -> Result<(), Fail> {
    let words = [0x1_0000_0000_0000, 0x7_0000_0001, 0x1_0000_0000];
    assert!(rt; leaves(rt.alloc(), &words, 2, (0x1_0000_0000, 0), Owner::Tag, &[0])?);
    Ok(())
}

/// The last words of lists differ if the padding after their elements is not zero. The lists are one of three bytes,
/// and one of a `u16` below a later slot.
#[test]
fn last_words_that_differ(rt: HostRuntime) -> Result<(), Fail> {
    let bytes = [0x1_0000_0000_0000, 0x1a_0000_0001, 0x403_0201];
    let both = (0x403_0201, 0x3_0201);
    assert!(rt; leaves(rt.alloc(), &bytes, 2, both, Owner::LastWord, &[0])?);
    let pairs = [
        0x2_0000_0000_0000,
        0x1_0000_0004,
        0x1_0000_0000_0004,
        7,
        0xb_0000_0001,
        0x1_0009,
    ];
    assert!(rt;
        leaves(
            rt.alloc(),
            &pairs,
            5,
            (0x1_0009, 9),
            Owner::LastWord,
            &[1, 0]
        )?
    );
    Ok(())
}

/// The first capability is found in the first slot of a struct, and below that slot. Both messages have another
/// capability in the second slot.
#[test]
fn capabilities(rt: HostRuntime) -> Result<(), Fail> {
    let found = told(
        rt.alloc(),
        &[0x2_0000_0000_0000, 0x7_0000_0003, 0x8_0000_0003],
    )?;
    let Mismatch::Capability(index, path) = found else {
        return Err(Fail::new("no capability"));
    };
    assert!(rt; index == 7 && path.as_slice() == [0].as_slice());
    let below = [
        0x2_0000_0000_0000,
        0x1_0000_0000_0004,
        0x2_0000_0003,
        0x4_0000_0003,
    ];
    let Mismatch::Capability(index, path) = told(rt.alloc(), &below)? else {
        return Err(Fail::new("no capability"));
    };
    assert!(rt; index == 4 && path.as_slice() == [0, 0].as_slice());
    Ok(())
}

/// A second segment is reported, even if it is empty.
#[test]
fn two_segments(rt: HostRuntime) -> Result<(), Fail> {
    let bytes = bytes_of(rt.alloc(), &[0x2_0000_0001, 0, 0x1_0000_0000, 5])?;
    let Ok((message, _taken)) = first(rt.alloc(), bytes.as_slice(), 64) else {
        return Err(Fail::new("no frame"));
    };
    let found = mismatch(rt.alloc(), &message, Limits::usual());
    assert!(rt; matches!(found, Ok(Mismatch::Segments(2))));
    Ok(())
}

/// A message without a root is refused.
#[test]
fn no_root(rt: HostRuntime) -> Result<(), Fail> {
    let Ok(none) = Bare::new(&[]) else {
        return Err(Fail::new("no words"));
    };
    let found = mismatch(rt.alloc(), &none, Limits::usual());
    let Err(Refusal::Walk(stopped)) = found else {
        return Err(Fail::new("not refused"));
    };
    assert!(rt; stopped.fault == Fault::NoRoot);
    Ok(())
}

/// The word that differs is found below a later slot. In one message it is a pointer below the second of three slots.
/// In the other it is in a list of bytes below the second of two rows, the first of which has a null slot.
#[test]
fn words_below_later_slots(rt: HostRuntime) -> Result<(), Fail> {
    let between = [
        0x3_0000_0000_0000,
        0x2_0000_0009,
        0x1_0000_0000_0004,
        0xffff_fffc,
        0x2_0000_0000,
        7,
        0,
    ];
    let rows = [
        0x1_0000_0000_0000,
        0x27_0000_0001,
        0x1_0001_0000_0008,
        1,
        0,
        2,
        0x1_0000_0000_0000,
        0x1a_0000_0001,
        0x403_0201,
    ];
    let both = (0x2_0000_0000, 0x1_0000_0000);
    let last = (0x403_0201, 0x3_0201);
    let are = leaves(rt.alloc(), &between, 4, both, Owner::Pointer, &[1, 0])?
        && leaves(rt.alloc(), &rows, 8, last, Owner::LastWord, &[0, 1, 0, 0])?;
    assert!(rt; are);
    Ok(())
}
