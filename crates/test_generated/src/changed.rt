//! Tests of canonical bytes with one byte changed.

use crate::agreement::is_told;
use capn_walk::Limits;
use std::alloc::Global;
use std::test::Fail;

/// The canonical bytes of small messages, in hexadecimal.
const CANONICAL: [&str; 22] = [
    "0000000000000000",
    "fcffffff00000000",
    "00000000010000000500000000000000",
    "00000000000001000100000017000000080000000100000007000000000000000000000000000000",
    "000000000000010001000000070000000800000000000000",
    "0000000000000100010000001a0000006162630000000000",
    "00000000000002000400000001000000040000000100000009000000000000000900000000000000",
    "0000000000000100fcffffff00000000",
    "000000000000010001000000070000000000000000000000",
    "00000000000001000100000051000000ff03000000000000",
    "0000000000000100010000001600000000000000000000000000000000000000",
    "0000000000000200050000000200000000000000010000000900000000000000",
    "0000000000000100010000000f00000004000000010000000700000000000000",
    "0000000001000000fcffffff01000000",
    "0000000000000100010000000f0000000400000000000100fcffffff00000000",
    "00000000010001000500000000000000fcffffff00000000",
    "000000000000010001000000070000000c00000000000000",
    "000000000000020004000000000001000800000001000000000000000100000001000000000000000200000000000000",
    "0100000002000000",
    "01000000070000000400000000000000",
    "010000000e000000fcffffff00000000",
    "0100000051000000ff03000000000000",
];

// Changes each byte of `bytes` to each value, one byte at a time. Tests whether `is_told` holds for all results.
fn are_told(alloc: Global, bytes: &mut [u8], limits: Limits) -> bool {
    for at in 0..bytes.len() {
        for change in 0..=255u8 {
            bytes[at] ^= change;
            if !is_told(alloc, bytes, limits) {
                return false;
            }
            bytes[at] ^= change;
        }
    }
    true
}

#[test]
fn every_byte_changed(rt: HostRuntime) -> Result<(), Fail> {
    // The budget is small, because a changed byte can make a cycle of pointers.
    let limits = Limits::new(1_000, 4_000, 64).unwrap_or(Limits::usual());
    for digits in &CANONICAL {
        let Ok(mut bytes) = hex::decode(rt.alloc(), digits) else {
            return Err(Fail::new("no digits"));
        };
        assert!(rt; are_told(rt.alloc(), &mut bytes, limits), "{digits}");
    }
    Ok(())
}
