//! The laws of one result for the calls that pack and unpack. See [`decision`](crate::decision).

ghost use Rattle.capn_c.specs.Decision.{Agree};

use crate::pack_calls::{capn_pack, capn_unpack};
use crate::unpack_some_call::capn_unpack_some;
use capn_abi::CapnReport;
use std::alloc::Global;

/// States that the bytes of `capn_pack` and the length of the buffer decide the status and the report, unless a status
/// is 8.
pub fn pack(
    alloc: Global,
    bytes: &[u8],
    out: &mut [u8],
    first: &mut CapnReport,
    second: &mut CapnReport,
) -> (u32, u32)
    ensures { Agree result.0 first.new result.1 second.new }
{
    let one = capn_pack(alloc, bytes, out, first);
    let other = capn_pack(alloc, bytes, out, second);
    (one, other)
}

/// States that the arguments of `capn_unpack` and the length of the buffer decide the status and the report, unless a
/// status is 8.
pub fn unpack(
    alloc: Global,
    bytes: &[u8],
    max_words: u32,
    out: &mut [u8],
    first: &mut CapnReport,
    second: &mut CapnReport,
) -> (u32, u32)
    ensures { Agree result.0 first.new result.1 second.new }
{
    let one = capn_unpack(alloc, bytes, max_words, out, first);
    let other = capn_unpack(alloc, bytes, max_words, out, second);
    (one, other)
}

/// States that the bytes of `capn_unpack_some` and the length of the buffer decide the status and the report, unless a
/// status is 8.
pub fn unpack_some(
    alloc: Global,
    bytes: &[u8],
    out: &mut [u8],
    first: &mut CapnReport,
    second: &mut CapnReport,
) -> (u32, u32)
    ensures { Agree result.0 first.new result.1 second.new }
{
    let one = capn_unpack_some(alloc, bytes, out, first);
    let other = capn_unpack_some(alloc, bytes, out, second);
    (one, other)
}
