//! Tests of the steps of views, and of the reports of surveys and checks.

use crate::words::bytes_of;
use capn_canon::{Refusal, SurveyedBare, survey, survey_bare, survey_canonical};
use capn_stream::first;
use capn_value::Tariff;
use capn_walk::{Fault, Limits, Meter, Stopped, Surveyed, View};
use capn_words::{Bare, MOST_MESSAGE_WORDS, Place, Space};
use std::alloc::Global;
use std::test::Fail;

/// A struct whose two slots point to the same struct.
const SHARED: [u64; 4] = [0x2_0000_0000_0000, 0x1_0000_0004, 0x1_0000_0000, 9];

/// A stream whose root is in segment 1 and has a slot.
const FAR: [u64; 5] = [0x1_0000_0001, 0x2, 0x1_0000_0002, 0x1_0000_0000_0000, 0];

/// Returns the words that `meter` has left after the root, the words left after the root's slot at `index`, and the
/// place of the slot.
fn stepped<S: Space>(space: &S, meter: &mut Meter, index: u32) -> Option<(u32, u32, Place)> {
    let root = View::root(space, meter, 64).ok()?;
    let left = meter.left();
    if index >= root.slots() as u32 {
        return None;
    }
    let _ = root.slot(index, meter);
    Some((left, meter.left(), root.slot_place(index)))
}

/// Returns the result of `stepped` for the second slot of `SHARED`.
fn left_of_shared(alloc: Global, mut meter: Meter) -> Option<(u32, u32, Place)> {
    let bytes = bytes_of(alloc, &SHARED).ok()?;
    let bare = Bare::new(bytes.as_slice()).ok()?;
    stepped(&bare, &mut meter, 1)
}

#[test]
fn meters(rt: HostRuntime) {
    let meter = Meter::new(6);
    assert!(rt; meter.left() == 6 && meter.paid() == 0 && meter.tariff() == Tariff::Strict);
    let plain = Meter::with_tariff(6, Tariff::Plain);
    assert!(rt; plain.left() == 6 && plain.tariff() == Tariff::Plain);
    let second = Place {
        segment: 0,
        word: 2,
    };
    assert!(rt; left_of_shared(rt.alloc(), meter) == Some((3, 1, second)));
    assert!(rt; left_of_shared(rt.alloc(), plain) == Some((4, 3, second)));
    // A step that exceeds the budget pays nothing.
    assert!(rt; left_of_shared(rt.alloc(), Meter::new(4)) == Some((1, 1, second)));
}

#[test]
fn a_slot_of_another_segment(rt: HostRuntime) -> Result<(), Fail> {
    let bytes = bytes_of(rt.alloc(), &FAR)?;
    let Ok((message, _)) = first(rt.alloc(), bytes.as_slice(), MOST_MESSAGE_WORDS) else {
        return Err(Fail::new("no message"));
    };
    let mut meter = Meter::new(3);
    let at = Place {
        segment: 1,
        word: 1,
    };
    assert!(rt; stepped(&message, &mut meter, 0) == Some((0, 0, at)));
    Ok(())
}

/// A struct with a capability in its slot.
const CAPABILITY: [u64; 2] = [0x1_0000_0000_0000, 0x2_0000_0003];

const RESERVED: [u64; 2] = [0x1_0000_0000_0000, 7];

/// Returns the results of a survey and of a check of a bare message.
fn told(
    alloc: Global,
    words: &[u64],
) -> Option<(Result<Surveyed, Refusal>, Result<SurveyedBare, Stopped>)> {
    let bytes = bytes_of(alloc, words).ok()?;
    let bare = Bare::new(bytes.as_slice()).ok()?;
    let surveyed = survey(alloc, &bare, Limits::usual());
    Some((surveyed, survey_bare(alloc, &bare, Limits::usual())))
}

/// Tests whether the survey and the check both report `paid`, `visits` and `capability`, and the check also reports
/// `is_canonical`.
fn are_told(
    alloc: Global,
    words: &[u64],
    (paid, visits, capability): (u32, u32, Option<u32>),
    is_canonical: bool,
) -> bool {
    match told(alloc, words) {
        Some((Ok(surveyed), Ok(checked))) => {
            (surveyed.paid, surveyed.visits, surveyed.capability) == (paid, visits, capability)
                && (checked.paid, checked.visits, checked.capability) == (paid, visits, capability)
                && checked.is_canonical == is_canonical
        }
        _ => false,
    }
}

/// The survey and the check report the same figures. Only the first message is canonical: the others have a trailing
/// zero word, a shared struct, or a capability.
#[test]
fn what_a_message_holds(rt: HostRuntime) {
    assert!(rt; are_told(rt.alloc(), &[0x1_0000_0000, 5], (2, 1, None), true));
    assert!(rt; are_told(rt.alloc(), &[0x2_0000_0000, 5, 0], (3, 1, None), false));
    assert!(rt; are_told(rt.alloc(), &SHARED, (7, 3, None), false));
    assert!(rt; are_told(rt.alloc(), &CAPABILITY, (2, 2, Some(2)), false));
}

/// Returns the report of one pass over a bare message.
fn passed(alloc: Global, words: &[u64]) -> Option<SurveyedBare> {
    let bytes = bytes_of(alloc, words).ok()?;
    let bare = Bare::new(bytes.as_slice()).ok()?;
    let _segments = bare.segments();
    survey_canonical(&bare, Limits::usual())
}

/// One pass reports on canonical bytes, and on no others.
#[test]
fn what_one_pass_tells(rt: HostRuntime) {
    let told = SurveyedBare {
        paid: 2,
        visits: 1,
        capability: None,
        is_canonical: true,
    };
    assert!(rt; passed(rt.alloc(), &[0x1_0000_0000, 5]) == Some(told));
    assert!(rt; passed(rt.alloc(), &[0x2_0000_0000, 5, 0]).is_none());
    assert!(rt; passed(rt.alloc(), &CAPABILITY).is_none());
}

#[test]
fn a_message_that_is_not_accepted(rt: HostRuntime) {
    let stopped = Stopped {
        fault: Fault::Reserved,
        place: Place {
            segment: 0,
            word: 1,
        },
        paid: 2,
        visits: 2,
    };
    let told = told(rt.alloc(), &RESERVED);
    let want = (Err(Refusal::Walk(stopped)), Err(stopped));
    assert!(rt; matches!(told, Some(told) if told == want));
}
