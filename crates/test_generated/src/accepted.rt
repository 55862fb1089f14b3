//! Tests of a thousand accepted messages of all kinds: five hundred values, each in one segment and in several.

use crate::agreement::{Answer, agreed};
use crate::writing::message;
use capn_canon::Refusal;
use capn_walk::Limits;
use std::alloc::Global;
use std::test::Fail;

// Returns the result of all calls for the message of `seed` in `segments` segments.
fn answer(alloc: Global, seed: u64, segments: u64) -> Result<Answer, Fail> {
    let stream = message(alloc, seed, segments)?;
    agreed(alloc, stream.as_slice(), Limits::usual()).map_err(Fail::new)
}

// Tests whether two messages have the same canonical bytes, or the same first capability.
fn is_one_value(one: &Answer, other: &Answer) -> bool {
    match (one, other) {
        (Ok(one), Ok(other)) => one.bytes.as_slice() == other.bytes.as_slice(),
        (Err(Refusal::Capability(one)), Err(Refusal::Capability(other))) => one == other,
        _ => false,
    }
}

// The calls agree on each message, and a value has the same canonical bytes in any number of segments.
#[test]
fn a_thousand_messages(rt: HostRuntime) -> Result<(), Fail> {
    let mut capabilities = 0u64;
    for seed in 0..500u64 {
        let one = answer(rt.alloc(), seed, 1)?;
        let other = answer(rt.alloc(), seed, 2 + seed % 3)?;
        assert!(rt; is_one_value(&one, &other), "at seed {seed}");
        if one.is_err() {
            capabilities = capabilities.saturating_add(1);
        }
    }
    assert!(rt; 0 < capabilities && capabilities < 250, "{capabilities}");
    Ok(())
}
