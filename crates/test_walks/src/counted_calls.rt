//! Tests that count how often a message is read, for the calls that take a `Space` and no counter.

use crate::tally::Tally;
use crate::words::bytes_of;
use capn_canon::{canonical_into, canonical_length, canonical_of};
use capn_diagnostics::explain_stop;
use capn_stream::first;
use capn_walk::{Entry, Limits, index_into, survey};
use std::alloc::Global;
use std::test::Fail;

/// Returns the pointer to a struct of two slots after the next `between` words.
fn pointer(between: u64) -> u64 {
    0x2_0000_0000_0000 | between << 2
}

/// Returns a frame of two segments with a chain of `levels + 1` structs of two slots. Both slots point to the next
/// struct, or are null in the last. The root is a far pointer to a landing pad of one word.
pub(crate) fn doubling(alloc: Global, levels: u8) -> Result<Vec<u8>, Fail> {
    let mut words = Vec::new(alloc);
    words.push(0x1_0000_0001)?;
    words.push(3 + 2 * levels as u64)?;
    words.push(0x1_0000_0002)?;
    words.push(pointer(0))?;
    for _ in 0..levels {
        words.push(pointer(1))?;
        words.push(pointer(0))?;
    }
    words.push(0)?;
    words.push(0)?;
    Ok(bytes_of(alloc, words.as_slice())?)
}

/// Counts how often five calls read the frame `bytes` within `limits`: `survey`, `index_into`, `canonical_length`,
/// `canonical_into` and `canonical_of`.
fn times_asked(alloc: Global, bytes: &[u8], limits: Limits) -> Result<[u64; 5], Fail> {
    let Ok((message, _taken)) = first(alloc, bytes, 8_388_608) else {
        return Err(Fail::new("no frame"));
    };
    let space = Tally::of(&message);
    let mut room: [Entry; 0] = [];
    let mut out = [0u8; 64];
    let _surveyed = survey(alloc, &space, limits);
    let surveyed = space.taken();
    let _indexed = index_into(&space, limits, &mut room);
    let indexed = space.taken();
    let _length = canonical_length(&space, limits);
    let length = space.taken();
    let _written = canonical_into(&space, limits, &mut out);
    let written = space.taken();
    let _canonical = canonical_of(alloc, &space, limits);
    Ok([surveyed, indexed, length, written, space.taken()])
}

/// Calls without a counter keep to the bounds of the calls with one, plus one read or two. The walk of this message
/// would make 8,191 visits within a greater budget.
#[test]
fn no_call_asks_more_than_its_counted_one(rt: HostRuntime) -> Result<(), Fail> {
    let bytes = doubling(rt.alloc(), 11)?;
    let Some(limits) = Limits::new(8_388_608, 7, 63) else {
        return Err(Fail::new("no limits"));
    };
    let [surveyed, indexed, length, written, canonical] = times_asked(
        rt.alloc(),
        bytes.as_slice(),
        limits,
    )?;
    assert!(rt; surveyed <= 14 * 8 + 2 && indexed <= 14 * 8 + 2);
    assert!(rt; length <= 34 * 8 + 1 && written <= 54 * 8 + 1 && canonical <= 56 * 8 + 1);
    Ok(())
}

/// Calls without a counter keep to the bounds for an accepted message, too. These bounds follow from the words that the
/// message pays.
#[test]
fn nor_where_it_answers(rt: HostRuntime) -> Result<(), Fail> {
    let bytes = doubling(rt.alloc(), 2)?;
    let Some(limits) = Limits::new(8_388_608, 1_000, 63) else {
        return Err(Fail::new("no limits"));
    };
    let [surveyed, indexed, length, written, canonical] = times_asked(
        rt.alloc(),
        bytes.as_slice(),
        limits,
    )?;
    // The message pays 14 words, two for each of seven structs.
    assert!(rt; 0 < surveyed && surveyed <= 14 * 15 + 2 && indexed <= 14 * 15 + 2);
    assert!(rt; length <= 34 * 15 + 1 && written <= 54 * 15 + 1 && canonical <= 56 * 15 + 1);
    Ok(())
}

/// Counts how often a survey that refuses a frame within `limits` reads it, and how often the explanation of that
/// refusal does.
fn times_explained(alloc: Global, bytes: &[u8], limits: Limits) -> Result<(u64, u64), Fail> {
    let Ok((message, _taken)) = first(alloc, bytes, 8_388_608) else {
        return Err(Fail::new("no frame"));
    };
    let space = Tally::of(&message);
    let Err(stopped) = survey(alloc, &space, limits) else {
        return Err(Fail::new("accepted"));
    };
    let surveyed = space.taken();
    match explain_stop(alloc, &space, 0, 0, 2, limits, stopped) {
        Ok(_told) => Ok((surveyed, space.taken())),
        Err(_) => Err(Fail::new("no memory")),
    }
}

/// A refused message is explained by one more walk, up to the refused slot. That walk reads about three times as often
/// as a survey. Code that also surveys the message again, or looks for the path twice, reads more often.
#[test]
fn a_refused_message_is_walked_once_more(rt: HostRuntime) -> Result<(), Fail> {
    let bytes = doubling(rt.alloc(), 11)?;
    let Some(limits) = Limits::new(8_388_608, 2_000, 63) else {
        return Err(Fail::new("no limits"));
    };
    let (surveyed, explained) = times_explained(rt.alloc(), bytes.as_slice(), limits)?;
    assert!(rt;
        1_000 < surveyed && explained <= surveyed.saturating_mul(3).saturating_add(200),
        "{surveyed} {explained}"
    );
    Ok(())
}
