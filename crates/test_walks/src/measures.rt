//! Tests of the measures of messages, canonical or not.

use crate::words::bytes_of;
use capn_canon::{MeasuredBare, SurveyedBare, measure, own_canonical};
use capn_stream::first;
use capn_walk::{Fault, Limits, Stopped};
use std::alloc::Global;
use std::test::Fail;

/// Returns the measure of the frame of `words` within the default limits. If the message is canonical, also returns the
/// price of its bytes, which must be all that follows the table.
fn told(
    alloc: Global,
    words: &[u64],
) -> Result<(Result<MeasuredBare, Stopped>, Option<u32>), Fail> {
    let bytes = bytes_of(alloc, words)?;
    let Ok((message, _taken)) = first(alloc, bytes.as_slice(), 8_388_608) else {
        return Err(Fail::new("no frame"));
    };
    let limits = Limits::usual();
    let own = match own_canonical(&message, limits) {
        Some(own) => {
            let behind = bytes.as_slice().get(8..);
            if behind != Some(own.bytes) {
                return Err(Fail::new("other bytes"));
            }
            Some(own.paid)
        }
        None => None,
    };
    Ok((measure(alloc, &message, limits), own))
}

/// Returns the measure with the given figures.
fn measured(
    paid: u32,
    visits: u32,
    capability: Option<u32>,
    is_canonical: bool,
    depth: u32,
) -> MeasuredBare {
    MeasuredBare {
        survey: SurveyedBare {
            paid,
            visits,
            capability,
            is_canonical,
        },
        depth,
    }
}

/// A message of a struct of one word is canonical.
#[test]
fn a_canonical_message(rt: HostRuntime) -> Result<(), Fail> {
    let (found, own) = told(rt.alloc(), &[0x2_0000_0000, 0x1_0000_0000, 5])?;
    assert!(rt; found == Ok(measured(2, 1, None, true, 1)));
    assert!(rt; own == Some(2));
    Ok(())
}

/// A message is not canonical if it has a zero word at the end of a struct, a word after the value, a capability, or a
/// second segment.
#[test]
fn messages_that_are_not_canonical(rt: HostRuntime) -> Result<(), Fail> {
    let (found, own) = told(rt.alloc(), &[0x3_0000_0000, 0x2_0000_0000, 5, 0])?;
    assert!(rt; found == Ok(measured(3, 1, None, false, 1)) && own.is_none());
    let (found, own) = told(rt.alloc(), &[0x3_0000_0000, 0x1_0000_0000, 5, 7])?;
    assert!(rt; found == Ok(measured(2, 1, None, false, 1)) && own.is_none());
    let slot = [0x2_0000_0000, 0x1_0000_0000_0000, 0x2_0000_0003];
    let (found, own) = told(rt.alloc(), &slot)?;
    assert!(rt; found == Ok(measured(2, 2, Some(2), false, 1)) && own.is_none());
    // The root is a far pointer to the second segment, whose first word is the landing pad.
    let apart = [0x1_0000_0001, 2, 0x1_0000_0002, 0x1_0000_0000, 5];
    let (found, own) = told(rt.alloc(), &apart)?;
    assert!(rt; found.is_ok_and(|found| !found.survey.is_canonical && found.depth == 1));
    assert!(rt; own.is_none());
    Ok(())
}

/// A message whose walk is refused has no measure. Here a slot points to its own struct.
#[test]
fn a_message_that_is_refused(rt: HostRuntime) -> Result<(), Fail> {
    let (found, own) = told(rt.alloc(), &[0x1_0000_0000, 0x1_0000_ffff_fffc])?;
    assert!(rt;
        matches!(found, Err(stopped) if stopped.fault == Fault::TooDeep && stopped.visits == 65)
    );
    assert!(rt; own.is_none());
    Ok(())
}
