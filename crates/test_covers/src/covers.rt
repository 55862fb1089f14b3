//! Tests of the times, the slots, the roles and the overlaps of words.

use crate::wanted::{cut, follow, is_cover, overlap, word};
use crate::words::bytes_of;
use capn_cover::{Covered, Role, cover, cover_surveyed};
use capn_stream::first;
use capn_walk::{Fault, Limits, survey};
use std::test::Fail;

#[test]
fn words_of_one_object_each(rt: HostRuntime) -> Result<(), Fail> {
    // A struct with a number and a list of three bytes.
    let words = [0x4_0000_0000, 0x1_0001_0000_0000, 5, 0x1a_0000_0001, 0x6261];
    let want = [
        word(1, 0, Role::Root),
        word(1, 0, Role::Data),
        follow(word(1, 0, Role::Slot)),
        word(1, 2, Role::Numbers),
    ];
    assert!(rt; is_cover(rt.alloc(), &words, &want)?);
    // A list of bytes that was set twice: the word of the first one is reached no longer.
    let words = [
        0x4_0000_0000,
        0x1_0000_0000_0000,
        0x32_0000_0005,
        0x61_6441,
        0x65_6361_7247,
    ];
    let want = [
        word(1, 0, Role::Root),
        follow(word(1, 0, Role::Slot)),
        Covered::unreached(),
        word(1, 1, Role::Numbers),
    ];
    assert!(rt; is_cover(rt.alloc(), &words, &want)?);
    // A null root, and a word behind it.
    assert!(rt;
        is_cover(
            rt.alloc(),
            &[0x2_0000_0000, 0, 7],
            &[word(1, 0, Role::Root), Covered::unreached()]
        )?
    );
    Ok(())
}

#[test]
fn a_landing_pad_and_a_shared_list(rt: HostRuntime) -> Result<(), Fail> {
    let words = [
        0x1_0000_0001,
        6,
        0x1_0000_0002,
        0x3_0001_0000_0000,
        0,
        0x1a_0000_0009,
        0x1a_0000_0005,
        0,
        0x6968,
    ];
    let want = [
        word(1, 0, Role::Root),
        word(1, 0, Role::Pad),
        cut(word(1, 0, Role::Data)),
        follow(word(1, 0, Role::Slot)),
        follow(word(1, 0, Role::Slot)),
        cut(word(1, 0, Role::Slot)),
        word(2, 3, Role::Numbers),
    ];
    assert!(rt; is_cover(rt.alloc(), &words, &want)?);
    Ok(())
}

/// Both words of a landing pad of two words are the pad's, and the content is in a third segment.
#[test]
fn a_landing_pad_of_two_words(rt: HostRuntime) -> Result<(), Fail> {
    let words = [
        0x1_0000_0002,
        0x1_0000_0002,
        0x1_0000_0006,
        0x2_0000_0002,
        0x1_0000_0000,
        9,
    ];
    let want = [
        word(1, 0, Role::Root),
        word(1, 0, Role::Pad),
        word(1, 0, Role::Pad),
        word(1, 0, Role::Data),
    ];
    assert!(rt; is_cover(rt.alloc(), &words, &want)?);
    Ok(())
}

#[test]
fn rows_that_a_later_list_shares_and_slack(rt: HostRuntime) -> Result<(), Fail> {
    let words = [
        0x7_0000_0000,
        0x2_0000_0000_0000,
        0x1f_0000_0005,
        0x14_0000_0009,
        0x1_0000_0008,
        7,
        9,
        0xffff_ffff_ffff_ffff,
    ];
    let want = [
        word(1, 0, Role::Root),
        follow(word(1, 0, Role::Slot)),
        follow(word(1, 0, Role::Slot)),
        word(1, 1, Role::Tag),
        word(1, 1, Role::Data),
        overlap(2, 1, Role::Data),
        word(1, 1, Role::Slack),
    ];
    assert!(rt; is_cover(rt.alloc(), &words, &want)?);
    Ok(())
}

/// Two slots lead to one struct, whose slot leads to a word. What is below the struct is covered twice, too.
#[test]
fn what_is_below_a_shared_object(rt: HostRuntime) -> Result<(), Fail> {
    let words = [
        0x5_0000_0000,
        0x2_0000_0000_0000,
        0x1_0000_0000_0004,
        0x1_0000_0000_0000,
        0x1_0000_0000,
        8,
    ];
    let want = [
        word(1, 0, Role::Root),
        follow(word(1, 0, Role::Slot)),
        follow(word(1, 0, Role::Slot)),
        follow(word(2, 1, Role::Slot)),
        word(2, 3, Role::Data),
    ];
    assert!(rt; is_cover(rt.alloc(), &words, &want)?);
    Ok(())
}

/// Rows of slots are covered before anything that lies below the first of them.
#[test]
fn rows_of_slots(rt: HostRuntime) -> Result<(), Fail> {
    // A list of two rows with a word and a slot each. The slot of the first row leads to the second row.
    let words = [
        0x6_0000_0000,
        0x27_0000_0001,
        0x1_0001_0000_0008,
        1,
        0x1_0000_0000,
        2,
        0,
    ];
    let want = [
        word(1, 0, Role::Root),
        word(1, 0, Role::Tag),
        word(1, 0, Role::Data),
        follow(word(1, 0, Role::Slot)),
        overlap(2, 0, Role::Data),
        word(1, 0, Role::Slot),
    ];
    assert!(rt; is_cover(rt.alloc(), &words, &want)?);
    Ok(())
}

/// Two slots lead to one landing pad, and so to one struct.
#[test]
fn a_shared_landing_pad(rt: HostRuntime) -> Result<(), Fail> {
    let words = [
        0x3_0000_0001,
        2,
        0x2_0000_0000_0000,
        0x1_0000_0002,
        0x1_0000_0002,
        0x1_0000_0000,
        9,
    ];
    let want = [
        word(1, 0, Role::Root),
        follow(word(1, 0, Role::Slot)),
        follow(word(1, 0, Role::Slot)),
        word(2, 1, Role::Pad),
        word(2, 1, Role::Data),
    ];
    assert!(rt; is_cover(rt.alloc(), &words, &want)?);
    Ok(())
}

/// Lists with the same first word, of the same sizes or not; a struct that covers the root's slot; and a struct that
/// covers its own landing pad.
#[test]
fn parts_that_differ(rt: HostRuntime) -> Result<(), Fail> {
    // Two lists of 8 bytes at one word, and a list of 7 bytes there.
    let shared = [
        0x4_0000_0000,
        0x2_0000_0000_0000,
        0x42_0000_0005,
        0x42_0000_0001,
        1,
    ];
    let want = [
        word(1, 0, Role::Root),
        follow(word(1, 0, Role::Slot)),
        follow(word(1, 0, Role::Slot)),
        word(2, 1, Role::Numbers),
    ];
    assert!(rt; is_cover(rt.alloc(), &shared, &want)?);
    let shorter = [
        0x4_0000_0000,
        0x2_0000_0000_0000,
        0x42_0000_0005,
        0x3a_0000_0001,
        1,
    ];
    let want = [
        word(1, 0, Role::Root),
        follow(word(1, 0, Role::Slot)),
        follow(word(1, 0, Role::Slot)),
        overlap(2, 1, Role::Numbers),
    ];
    assert!(rt; is_cover(rt.alloc(), &shorter, &want)?);
    // A struct of one word at word 0.
    let itself = [0x1_0000_0000, 0x1_ffff_fffc];
    assert!(rt; is_cover(rt.alloc(), &itself, &[overlap(2, 0, Role::Root)])?);
    // A struct of one word, at its own landing pad.
    let padded = [0x1_0000_0001, 1, 0x1_0000_0002, 0x1_ffff_fffc];
    let want = [word(1, 0, Role::Root), overlap(2, 0, Role::Pad)];
    assert!(rt; is_cover(rt.alloc(), &padded, &want)?);
    Ok(())
}

#[test]
fn a_refused_message(rt: HostRuntime) -> Result<(), Fail> {
    let bytes = bytes_of(rt.alloc(), &[0x1_0000_0000, 0x1_0000_0000])?;
    let usual = Limits::usual();
    let Ok((framed, _)) = first(rt.alloc(), bytes.as_slice(), usual.message_words()) else {
        return Err(Fail::new("no message"));
    };
    match cover(rt.alloc(), &framed, usual) {
        Ok(_) => Err(Fail::new("accepted")),
        Err(stopped) => {
            assert!(rt; stopped.fault == Fault::Range);
            Ok(())
        }
    }
}

/// The survey that comes with the cover of a message with the capability 5 is the message's own.
#[test]
fn a_cover_with_its_survey(rt: HostRuntime) -> Result<(), Fail> {
    let words = [0x2_0000_0000, 0x1_0000_0000_0000, 0x5_0000_0003];
    let bytes = bytes_of(rt.alloc(), &words)?;
    let usual = Limits::usual();
    let Ok((framed, _)) = first(rt.alloc(), bytes.as_slice(), usual.message_words()) else {
        return Err(Fail::new("no message"));
    };
    let Ok(found) = cover_surveyed(rt.alloc(), &framed, usual) else {
        return Err(Fail::new("refused"));
    };
    let want = [word(1, 0, Role::Root), word(1, 0, Role::Slot)];
    assert!(rt; found.words.as_slice() == want.as_slice());
    assert!(rt; found.survey.capability == Some(5));
    match survey(rt.alloc(), &framed, usual) {
        Ok(told) => {
            assert!(rt; found.survey == told);
            Ok(())
        }
        Err(_) => Err(Fail::new("not surveyed")),
    }
}

/// A message that is refused has neither a cover nor a survey.
#[test]
fn no_survey_of_a_refused_message(rt: HostRuntime) -> Result<(), Fail> {
    let bytes = bytes_of(rt.alloc(), &[0x1_0000_0000, 0x1_0000_0000])?;
    let usual = Limits::usual();
    let Ok((framed, _)) = first(rt.alloc(), bytes.as_slice(), usual.message_words()) else {
        return Err(Fail::new("no message"));
    };
    match cover_surveyed(rt.alloc(), &framed, usual) {
        Ok(_) => Err(Fail::new("accepted")),
        Err(stopped) => {
            assert!(rt; stopped.fault == Fault::Range);
            Ok(())
        }
    }
}
