//! Tests of the least limit on depth within which a message is accepted.

use crate::words::bytes_of;
use capn_canon::{MeasuredBare, measure_canonical};
use capn_walk::{Fault, Limits, Stopped, Surveyed, survey, survey_depth};
use capn_words::{Bare, Place, Space};
use std::alloc::Global;
use std::test::Fail;

/// Returns the result of a survey of `space` with the default limits and the depth `depth`. Returns `None` if `depth`
/// is out of range.
fn surveyed_at(alloc: Global, space: &Bare<'_>, depth: u32) -> Option<Result<Surveyed, Stopped>> {
    let usual = Limits::usual();
    let limits = Limits::new(usual.message_words(), usual.budget(), depth)?;
    Some(survey(alloc, space, limits))
}

/// Tests whether a survey finds that a message needs `depth`. A survey within `depth` must accept the message. A survey
/// within `depth - 1`, if limits allow that depth, must find the message too deep.
fn is_deep(alloc: Global, words: &[u64], depth: u32) -> Result<bool, Fail> {
    let bytes = bytes_of(alloc, words)?;
    let Ok(bare) = Bare::new(bytes.as_slice()) else {
        return Ok(false);
    };
    let Ok(measured) = survey_depth(alloc, &bare, Limits::usual()) else {
        return Ok(false);
    };
    let is_enough = match surveyed_at(alloc, &bare, depth.max(1)) {
        Some(Ok(surveyed)) => surveyed == measured.survey,
        _ => false,
    };
    let is_least = match surveyed_at(alloc, &bare, depth.saturating_sub(1)) {
        Some(Ok(_)) => false,
        Some(Err(stopped)) => stopped.fault == Fault::TooDeep,
        // Limits cannot have the depth 0.
        None => depth < 2,
    };
    Ok(measured.depth == depth && is_enough && is_least)
}

#[test]
fn each_depth(rt: HostRuntime) -> Result<(), Fail> {
    // A null root, and an empty struct.
    assert!(rt; is_deep(rt.alloc(), &[0], 0)?);
    assert!(rt; is_deep(rt.alloc(), &[0xffff_fffc], 1)?);
    // A null slot, and a slot with a capability.
    assert!(rt; is_deep(rt.alloc(), &[0x1_0000_0000_0000, 0], 1)?);
    assert!(rt; is_deep(rt.alloc(), &[0x1_0000_0000_0000, 0x2_0000_0003], 1)?);
    // Two slots that point to the same struct, and a slot that points to three bytes.
    let shared = [0x2_0000_0000_0000, 0x1_0000_0004, 0x1_0000_0000, 9];
    assert!(rt; is_deep(rt.alloc(), &shared, 2)?);
    assert!(rt;
        is_deep(
            rt.alloc(),
            &[0x1_0000_0000_0000, 0x1a_0000_0001, 0x63_6261],
            2
        )?
    );
    Ok(())
}

/// A struct whose slot points to the struct itself is too deep within any limit.
#[test]
fn a_struct_in_its_own_slot(rt: HostRuntime) -> Result<(), Fail> {
    let bytes = bytes_of(rt.alloc(), &[0x1_0000_ffff_fffc])?;
    let Ok(bare) = Bare::new(bytes.as_slice()) else {
        return Err(Fail::new("no words"));
    };
    let want = Stopped {
        fault: Fault::TooDeep,
        place: Place {
            segment: 0,
            word: 0,
        },
        paid: 128,
        visits: 65,
    };
    let told = survey_depth(rt.alloc(), &bare, Limits::usual());
    assert!(rt; matches!(told, Err(stopped) if stopped == want));
    Ok(())
}

/// Returns the measure of a bare message by one pass, with the default limits and the depth `depth`.
fn measured_at(alloc: Global, words: &[u64], depth: u32) -> Option<MeasuredBare> {
    let bytes = bytes_of(alloc, words).ok()?;
    let bare = Bare::new(bytes.as_slice()).ok()?;
    let usual = Limits::usual();
    let limits = Limits::new(usual.message_words(), usual.budget(), depth)?;
    let _segments = bare.segments();
    measure_canonical(&bare, limits)
}

/// One pass finds the depth of canonical bytes, whether or not the deepest object is the last one. It finds none for
/// other bytes, or past its limits.
#[test]
fn one_pass_learns_the_depth(rt: HostRuntime) {
    // Two slots: one points to a struct with a struct below it, the other to a struct with none.
    let slots = [
        0x2_0000_0000_0000,
        0x1_0000_0000_0004,
        0x1_0000_0008,
        0x1_0000_0000,
        7,
        9,
    ];
    // Two rows, each with one slot. The depth of 3 is reached below the first row.
    let rows = [
        0x17_0000_0001,
        0x1_0000_0000_0008,
        0x1_0000_0000_0004,
        0x1_0000_0008,
        0x1_0000_0000,
        7,
        9,
    ];
    assert!(rt;
        measured_at(rt.alloc(), &slots, 64).is_some_and(|told| told.depth == 3
            && told.survey.paid == 9)
    );
    assert!(rt; measured_at(rt.alloc(), &slots, 3).is_some_and(|told| told.depth == 3));
    assert!(rt; measured_at(rt.alloc(), &slots, 2).is_none());
    assert!(rt; measured_at(rt.alloc(), &rows, 64).is_some_and(|told| told.depth == 3));
    assert!(rt; measured_at(rt.alloc(), &rows, 2).is_none());
    assert!(rt; measured_at(rt.alloc(), &[0], 64).is_some_and(|told| told.depth == 0));
    // A struct that ends with a zero word.
    assert!(rt; measured_at(rt.alloc(), &[0x2_0000_0000, 5, 0], 64).is_none());
}
