//! Tests of searches for slots, and for the objects that hold them.

use crate::words::bytes_of;
use capn_path::{Aim, Holder, holder_of, seek};
use capn_target::{Fault, Target, segment_length};
use capn_words::{Bare, Memory, Place};
use std::alloc::Global;
use std::test::Fail;
use test_allocator::Refusing;

/// A struct of a word and two slots. The first slot has two pointers, of which the last is a capability. The second has
/// two rows of a word and a slot, of which the last slot is reserved.
const OBJECTS: [u64; 11] = [
    0x2_0001_0000_0000,
    5,
    0x16_0000_0005,
    0x27_0000_0009,
    0,
    0x4_0000_0003,
    0x1_0001_0000_0008,
    6,
    0,
    8,
    7,
];

/// Returns the place of `word` in the first segment.
fn at(word: u32) -> Place {
    Place { segment: 0, word }
}

/// Returns the holder of the slot to which `path` leads.
fn held(alloc: Global, words: &[u64], path: &[u32]) -> Result<Option<Holder>, Fail> {
    let bytes = bytes_of(alloc, words)?;
    match Bare::new(bytes.as_slice()) {
        Ok(bare) => Ok(holder_of(&bare, path)),
        Err(_) => Err(Fail::new("no words")),
    }
}

#[test]
fn the_holder_of_a_slot(rt: HostRuntime) -> Result<(), Fail> {
    let body = Holder::Struct {
        words: 1,
        slots: 2,
        at: at(1),
    };
    assert!(rt; held(rt.alloc(), &OBJECTS, &[0])? == Some(body));
    assert!(rt; held(rt.alloc(), &OBJECTS, &[1])? == Some(body));
    let pointers = Holder::Pointers {
        count: 2,
        at: at(4),
    };
    assert!(rt; held(rt.alloc(), &OBJECTS, &[0, 1])? == Some(pointers));
    let row = Holder::Row {
        row: 1,
        count: 2,
        at: at(9),
    };
    assert!(rt; held(rt.alloc(), &OBJECTS, &[1, 1, 0])? == Some(row));
    Ok(())
}

/// The root's slot has no holder. A path leads to no slot if a number is too great, if it ends at a row, or if it goes
/// through a null pointer, a capability or a fault.
#[test]
fn no_holder(rt: HostRuntime) -> Result<(), Fail> {
    let paths: [&[u32]; 9] = [
        &[],
        &[2],
        &[0, 2],
        &[1, 2, 0],
        &[1, 0, 1],
        &[1, 1],
        &[0, 0, 0],
        &[0, 1, 0],
        &[1, 1, 0, 0],
    ];
    for path in paths {
        assert!(rt; held(rt.alloc(), &OBJECTS, path)?.is_none());
    }
    assert!(rt; held(rt.alloc(), &[], &[0])?.is_none());
    Ok(())
}

/// The aim at the slots at one word. A find is the place of the slot.
#[derive(Drop)]
struct Word {
    word: u32,
}

impl Aim for Word {
    type Found = Place;

    ghost use Rattle.std.specs.Prelude.{◌==◌, Some, None};

    ghost finds = { λ aim at named. if at.word == aim.word then Some at else None };

    ghost next = { λ aim. aim };

    fn test(&mut self, at: Place, _named: Result<Target, Fault>) -> Option<Place> {
        if at.word == self.word { Some(at) } else { None }
    }
}

/// Tests whether a search for the slot at `word`, at most `depth` objects deep, finds it by `path`, or finds nothing.
fn is_found(
    alloc: Global,
    words: &[u64],
    depth: u32,
    word: u32,
    path: Option<&[u32]>,
) -> Result<bool, Fail> {
    let bytes = bytes_of(alloc, words)?;
    let Ok(bare) = Bare::new(bytes.as_slice()) else {
        return Ok(false);
    };
    if segment_length(&bare, 0) == 0 {
        return Ok(false);
    }
    match (seek(alloc, &bare, depth, Word { word }), path) {
        (Ok(Some((place, found))), Some(path)) => Ok(place == at(word) && found.as_slice() == path),
        (Ok(None), None) => Ok(true),
        _ => Ok(false),
    }
}

/// A struct of two slots that point to the same struct, whose slot is null. Words 1, 2 and 3 are the slots.
const SHARED: [u64; 4] = [
    0x2_0000_0000_0000,
    0x1_0000_0000_0004,
    0x1_0000_0000_0000,
    0,
];

/// The first of the visits at a word is found, no deeper than the search may go.
#[test]
fn a_slot_that_is_found(rt: HostRuntime) -> Result<(), Fail> {
    assert!(rt; is_found(rt.alloc(), &SHARED, 2, 0, Some(&[]))?);
    assert!(rt; is_found(rt.alloc(), &SHARED, 0, 0, Some(&[]))?);
    assert!(rt; is_found(rt.alloc(), &SHARED, 1, 2, Some(&[1]))?);
    assert!(rt; is_found(rt.alloc(), &SHARED, 2, 3, Some(&[0, 0]))?);
    assert!(rt; is_found(rt.alloc(), &OBJECTS, 64, 5, Some(&[0, 1]))?);
    assert!(rt; is_found(rt.alloc(), &OBJECTS, 64, 10, Some(&[1, 1, 0]))?);
    Ok(())
}

/// A data word and a tag are no slots. Slots that are deeper than the search are not found.
#[test]
fn a_slot_that_is_not_found(rt: HostRuntime) -> Result<(), Fail> {
    assert!(rt; is_found(rt.alloc(), &SHARED, 1, 3, None)?);
    assert!(rt; is_found(rt.alloc(), &SHARED, 0, 1, None)?);
    assert!(rt; is_found(rt.alloc(), &OBJECTS, 64, 1, None)?);
    assert!(rt; is_found(rt.alloc(), &OBJECTS, 64, 6, None)?);
    Ok(())
}

/// Only the path to the root's slot takes no memory.
#[test]
fn a_search_without_memory(rt: HostRuntime) -> Result<(), Fail> {
    let bytes = bytes_of(rt.alloc(), &SHARED)?;
    let Ok(bare) = Bare::new(bytes.as_slice()) else {
        return Err(Fail::new("no words"));
    };
    if segment_length(&bare, 0) == 0 {
        return Err(Fail::new("no root"));
    }
    let heap = Refusing::nth(rt.alloc(), 0);
    heap.refuse_each();
    assert!(rt; matches!(seek(&heap, &bare, 2, Word { word: 0 }), Ok(Some(_))));
    assert!(rt; matches!(seek(&heap, &bare, 2, Word { word: 3 }), Err(Memory)));
    Ok(())
}
