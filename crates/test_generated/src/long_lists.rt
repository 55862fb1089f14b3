//! Tests of a list of very many pointers. Calls that report its last pointer do not run out of memory.

use capn_answers::{Mismatch, Walked, mismatch_and_survey_in, walk_in};
use capn_canon::Form;
use capn_walk::Limits;
use std::alloc::{AllocError, Global};
use std::test::Fail;

/// Returns the frame of one segment with a list of 110,000 pointers, all null except the last, which is `last`.
fn long_list(alloc: Global, last: u64) -> Result<Vec<u8>, AllocError> {
    let mut stream = Vec::from_slice(alloc, &[0, 0, 0, 0])?;
    stream.extend_from_slice(&110_001u32.to_le_bytes())?;
    stream.extend_from_slice(&0xd_6d86_0000_0001u64.to_le_bytes())?;
    for _ in 1..110_000u32 {
        stream.extend_from_slice(&[0; 8])?;
    }
    stream.extend_from_slice(&last.to_le_bytes())?;
    Ok(stream)
}

/// The last of many elements is found: one that points far out of the message is refused, and a capability with the
/// greatest index is reported. Memory suffices for both.
#[test]
fn the_last_of_many_elements_is_told(rt: HostRuntime) -> Result<(), Fail> {
    let limits = Limits::usual();
    let refused = long_list(rt.alloc(), 0x1_7fff_fffc)?;
    let walked = walk_in(rt.alloc(), Form::Stream, &refused, limits);
    assert!(rt;
        matches!(walked, Ok(Walked::Refused(told)) if told.path.as_slice() == [109_999].as_slice())
    );
    let held = long_list(rt.alloc(), 0xffff_ffff_0000_0003)?;
    let mismatched = mismatch_and_survey_in(rt.alloc(), Form::Stream, &held, limits);
    let is_right = match mismatched {
        Ok(found) => matches!(
            found.mismatch,
            Mismatch::Capability(0xffff_ffff, path) if path.as_slice() == [109_999].as_slice()
        ),
        Err(_) => false,
    };
    assert!(rt; is_right);
    Ok(())
}
