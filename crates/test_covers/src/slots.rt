//! Tests of the holders of slots, of the words that are cut, and of the numbers of words.

use crate::wanted::{cut, follow, held, is_cover, overlap, word};
use crate::words::bytes_of;
use capn_cover::{Role, number_of, place_of, words_before};
use capn_stream::first;
use capn_walk::Limits;
use capn_words::{Place, Space};
use std::test::Fail;

/// A word of zeros is the data of a struct, and later an element of a list of pointers. It is cut as the struct's.
#[test]
fn data_that_is_read_as_a_slot(rt: HostRuntime) -> Result<(), Fail> {
    let words = [
        0x4_0000_0000,
        0x2_0000_0000_0000,
        0x1_0000_0004,
        0xe_0000_0001,
        0,
    ];
    let want = [
        word(1, 0, Role::Root),
        follow(word(1, 0, Role::Slot)),
        follow(word(1, 0, Role::Slot)),
        held(2, cut(overlap(2, 1, Role::Data))),
    ];
    assert!(rt; is_cover(rt.alloc(), &words, &want)?);
    // The element leads to a word behind it, which its own visit covers.
    let words = [
        0x5_0000_0000,
        0x2_0000_0000_0000,
        0x1_0000_0004,
        0xe_0000_0001,
        0x1_0000_0000,
        0,
    ];
    let want = [
        word(1, 0, Role::Root),
        follow(word(1, 0, Role::Slot)),
        follow(word(1, 0, Role::Slot)),
        held(2, follow(overlap(2, 1, Role::Data))),
        cut(word(1, 3, Role::Data)),
    ];
    assert!(rt; is_cover(rt.alloc(), &words, &want)?);
    Ok(())
}

/// The second of two elements of a list of pointers is the only element of another list. The element is null, so it is
/// not followed, and its holder is the last slot that leads to it.
#[test]
fn slots_that_overlap(rt: HostRuntime) -> Result<(), Fail> {
    let words = [
        0x5_0000_0000,
        0x2_0000_0000_0000,
        0x16_0000_0005,
        0xe_0000_0005,
        0,
        0,
    ];
    let want = [
        word(1, 0, Role::Root),
        follow(word(1, 0, Role::Slot)),
        follow(word(1, 0, Role::Slot)),
        word(1, 1, Role::Slot),
        held(2, overlap(2, 1, Role::Slot)),
    ];
    assert!(rt; is_cover(rt.alloc(), &words, &want)?);
    Ok(())
}

/// The first slot of the root leads to a struct whose only slot is the second slot of the root. So the walk comes to
/// the second slot first through that struct.
#[test]
fn a_slot_that_is_first_reached_through_a_later_object(rt: HostRuntime) -> Result<(), Fail> {
    let words = [
        0x4_0000_0000,
        0x2_0000_0000_0000,
        0x1_0000_0000_0000,
        0x1_0000_0000,
        7,
    ];
    let want = [
        word(1, 0, Role::Root),
        follow(word(1, 0, Role::Slot)),
        held(1, follow(overlap(2, 0, Role::Slot))),
        word(2, 2, Role::Data),
    ];
    assert!(rt; is_cover(rt.alloc(), &words, &want)?);
    Ok(())
}

/// A zero of one row stands where another row has a number, and is not cut.
#[test]
fn words_that_are_cut_of_each_row(rt: HostRuntime) -> Result<(), Fail> {
    // Two rows with two words and two slots each, and a word behind them.
    let words = [
        0xb_0000_0000,
        0x4f_0000_0001,
        0x2_0002_0000_0008,
        7,
        0,
        0,
        0,
        0,
        0,
        0xffff_fffc,
        0,
        0,
        0,
    ];
    let want = [
        word(1, 0, Role::Root),
        word(1, 0, Role::Tag),
        word(1, 0, Role::Data),
        cut(word(1, 0, Role::Data)),
        word(1, 0, Role::Slot),
        cut(word(1, 0, Role::Slot)),
        word(1, 0, Role::Data),
        cut(word(1, 0, Role::Data)),
        word(1, 0, Role::Slot),
        cut(word(1, 0, Role::Slot)),
        word(1, 0, Role::Slack),
    ];
    assert!(rt; is_cover(rt.alloc(), &words, &want)?);
    Ok(())
}

/// The numbers of the words of three segments, of which the second is empty.
#[test]
fn numbers_of_words(rt: HostRuntime) -> Result<(), Fail> {
    let bytes = bytes_of(rt.alloc(), &[0x2_0000_0002, 0x2_0000_0000, 1, 2, 3, 4])?;
    let usual = Limits::usual();
    let Ok((framed, _)) = first(rt.alloc(), bytes.as_slice(), usual.message_words()) else {
        return Err(Fail::new("no message"));
    };
    let before = words_before(rt.alloc(), &framed)?;
    assert!(rt; before.as_slice() == [0, 2, 2].as_slice());
    let Some(words) = framed.words(2) else {
        return Err(Fail::new("no segment"));
    };
    assert!(rt; words == 2);
    assert!(rt; number_of(&framed, before.as_slice(), 2, 1) == 3);
    let at = Place {
        segment: 2,
        word: 1,
    };
    assert!(rt; place_of(&framed, before.as_slice(), 3) == Some(at));
    assert!(rt; place_of(&framed, before.as_slice(), 4) == None);
    Ok(())
}
