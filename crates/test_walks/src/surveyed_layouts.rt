//! Tests of the layout, the length and the comparison of messages that were surveyed before.

ghost use Rattle.std.specs.Prelude.{◌≡◌, ◌<◌};
ghost use Rattle.capn_walk.specs.Surveyed.{IsSurvey};

use crate::words::bytes_of;
use capn_layout::{
    surveyed_layout, surveyed_layout_counted, surveyed_layout_into_counted, surveyed_length,
    surveyed_length_counted,
};
use capn_same::surveyed_same_counted;
use capn_target::counted::{CountedSpace, Reads, count_reads};
use capn_walk::{Limits, Surveyed, survey, survey_counted};
use capn_words::{Bare, Space};
use std::alloc::Global;
use std::marker::Brand;
use std::sync::ledger::{Blank, Ledger};
use std::test::Fail;

/// A message of a struct with the number 5, a zero word, a text and a null pointer. A word before the struct and a word
/// before the text belong to no object.
const LOOSE: [u64; 7] = [0x2_0002_0000_0004, 0, 5, 0, 0x1a_0000_0005, 0, 0x63_6261];

/// The canonical words of `LOOSE`. The zero word, the null pointer and the words of no object are left out.
const OWN: [u64; 4] = [0x1_0001_0000_0000, 5, 0x1a_0000_0001, 0x63_6261];

/// `OWN` with another text.
const OTHER: [u64; 4] = [0x1_0001_0000_0000, 5, 0x1a_0000_0001, 0x64_6261];

/// Returns the canonical bytes and their number of words, for a message with the survey `told`.
fn laid<S: Space>(
    alloc: Global,
    space: &S,
    limits: Limits,
    told: Surveyed,
) -> Option<(Vec<u8>, u32)>
    requires survey { IsSurvey (S.message space.now) limits told }
{
    let _segments = space.segments();
    let _budget = limits.budget();
    let words = surveyed_length(space, limits.depth());
    match surveyed_layout(alloc, space, limits.depth(), told.paid) {
        Ok(bytes) => Some((bytes, words)),
        Err(_) => None,
    }
}

/// Tests whether a message is laid out as `want`.
fn is_laid(alloc: Global, message: &[u8], want: &[u8]) -> bool {
    let limits = Limits::usual();
    let Ok(space) = Bare::new(message) else {
        return false;
    };
    match survey(alloc, &space, limits) {
        Ok(told) => match laid(alloc, &space, limits, told) {
            Some((bytes, words)) => bytes.as_slice() == want && words as usize == want.len() / 8,
            None => false,
        },
        Err(_) => false,
    }
}

/// Does what `is_laid` does, with the calls that count the reads of a message.
fn is_laid_counted<S: Space, L: Ledger>(
    alloc: Global,
    space: &CountedSpace<'_, S, L>,
    reads: &mut Reads<L>,
    want: &[u8],
) -> bool {
    space.bounds();
    let limits = Limits::usual();
    let _budget = limits.budget();
    let Ok(told) = survey_counted(space, limits, reads) else {
        return false;
    };
    let words = surveyed_length_counted(space, limits.depth(), reads);
    match surveyed_layout_counted(alloc, space, limits.depth(), told.paid, reads) {
        Ok(bytes) => bytes.as_slice() == want && words as usize == want.len() / 8,
        Err(_) => false,
    }
}

/// Tests whether the message is laid out as `want` at the start of a buffer of 128 bytes, and the rest stays as it was.
/// The walk of the message pays at most 15 words.
fn is_laid_into<S: Space, L: Ledger>(
    space: &CountedSpace<'_, S, L>,
    reads: &mut Reads<L>,
    want: &[u8],
) -> bool {
    space.bounds();
    let limits = Limits::new(8_388_608, 15, 64).unwrap_or(Limits::usual());
    let _budget = limits.budget();
    let Ok(told) = survey_counted(space, limits, reads) else {
        return false;
    };
    if told.paid > 15 {
        return false;
    }
    let mut room = [7u8; 128];
    let len = surveyed_layout_into_counted(space, limits.depth(), &mut room, reads);
    room.get(..len) == Some(want) && room.get(len..) == [7u8; 128].get(len..)
}

/// Tests whether two messages have the same value.
fn are_same<S: Space, T: Space, L: Ledger, M: Ledger>(
    one: &CountedSpace<'_, S, L>,
    other: &CountedSpace<'_, T, M>,
    first: &mut Reads<L>,
    second: &mut Reads<M>,
) -> Option<bool> {
    one.bounds();
    other.bounds();
    let limits = Limits::usual();
    let _budget = limits.budget();
    match (
        survey_counted(one, limits, first),
        survey_counted(other, limits, second),
    ) {
        (Ok(_), Ok(_)) => Some(surveyed_same_counted(one, other, limits.depth(), first, second)),
        _ => None,
    }
}

/// The tests of the calls that count, with the new ledgers `blank` and `other_blank`.
fn are_laid_with_ledgers<L: Ledger>(
    alloc: Global,
    message: &[u8],
    want: &[u8],
    blank: Blank,
) -> bool
    requires name { blank.name ≡ L.name }
    requires parts { blank.parts ≡ L.parts }
    requires one { 0 < blank.parts }
{
    let Ok(space) = Bare::new(message) else {
        return false;
    };
    let (space, mut reads) = count_reads::<Bare, L>(&space, blank);
    is_laid_counted(alloc, &space, &mut reads, want) && is_laid_into(&space, &mut reads, want)
}

/// Compares two messages, with the new ledgers `first` and `second`.
fn compared<L: Ledger, M: Ledger>(
    one: &[u8],
    other: &[u8],
    first: Blank,
    second: Blank,
) -> Option<bool>
    requires name { first.name ≡ L.name }
    requires parts { first.parts ≡ L.parts }
    requires some { 0 < first.parts }
    requires second_name { second.name ≡ M.name }
    requires second_parts { second.parts ≡ M.parts }
    requires second_some { 0 < second.parts }
{
    let (Ok(one), Ok(other)) = (Bare::new(one), Bare::new(other)) else {
        return None;
    };
    let (one, mut first) = count_reads::<Bare, L>(&one, first);
    let (other, mut second) = count_reads::<Bare, M>(&other, second);
    are_same(&one, &other, &mut first, &mut second)
}

#[test]
fn a_message_is_laid_out(rt: HostRuntime) -> Result<(), Fail> {
    let loose = bytes_of(rt.alloc(), &LOOSE)?;
    let own = bytes_of(rt.alloc(), &OWN)?;
    assert!(rt; is_laid(rt.alloc(), loose.as_slice(), own.as_slice()));
    assert!(rt; is_laid(rt.alloc(), own.as_slice(), own.as_slice()));
    Ok(())
}

#[test]
fn a_message_is_laid_out_by_calls_that_count(rt: HostRuntime) -> Result<(), Fail> {
    let loose = bytes_of(rt.alloc(), &LOOSE)?;
    let own = bytes_of(rt.alloc(), &OWN)?;
    assert!(rt;
        are_laid_with_ledgers::<Brand>(rt.alloc(), loose.as_slice(), own.as_slice(), Blank::new(1))
    );
    Ok(())
}

#[test]
fn messages_are_compared(rt: HostRuntime) -> Result<(), Fail> {
    let loose = bytes_of(rt.alloc(), &LOOSE)?;
    let own = bytes_of(rt.alloc(), &OWN)?;
    let other = bytes_of(rt.alloc(), &OTHER)?;
    let is_same = compared::<Brand, Brand>(
        loose.as_slice(),
        own.as_slice(),
        Blank::new(1),
        Blank::new(1),
    );
    assert!(rt; is_same == Some(true));
    let is_same = compared::<Brand, Brand>(
        loose.as_slice(),
        other.as_slice(),
        Blank::new(1),
        Blank::new(1),
    );
    assert!(rt; is_same == Some(false));
    Ok(())
}
