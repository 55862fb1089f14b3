//! The laws of one result for the calls that return a path. See [`decision`](crate::decision).

ghost use Rattle.std.specs.Prelude.{◌≡◌};
ghost use Rattle.capn_c.specs.Decision.{Agree};

use crate::departed::CapnDeparted;
use crate::departure_call::capn_departure;
use crate::refusal_way_call::capn_refusal_way;
use capn_abi::{CapnLimits, CapnReport};
use capn_mismatch::laws::mismatches;
use capn_path::laws::paths;
use std::alloc::Global;

/// States that the arguments of `capn_refusal_way` decide the status and the report, unless a status is 8. The report
/// has the length of the path, also if the path does not fit into `way`.
pub fn refusal_way(
    alloc: Global,
    form: u32,
    bytes: &[u8],
    limits: &CapnLimits,
    way: &mut [u32],
    first: &mut CapnReport,
    second: &mut CapnReport,
) -> (u32, u32)
    ensures { Agree result.0 first.new result.1 second.new }
{
    // The proof of the contract needs the law that one path at most leads to a refused slot.
    paths();
    let one = capn_refusal_way(alloc, form, bytes, limits, way, first);
    let other = capn_refusal_way(alloc, form, bytes, limits, way, second);
    (one, other)
}

/// States that the arguments of `capn_departure` decide the status and the report, unless a status is 8. The report has
/// the length of the path, also if the path does not fit into `way`. If both statuses are 0, the arguments also decide
/// `departed`, the mismatch of the message.
pub fn departure(
    alloc: Global,
    form: u32,
    bytes: &[u8],
    limits: &CapnLimits,
    departed: &mut CapnDeparted,
    also: &mut CapnDeparted,
    way: &mut [u32],
    first: &mut CapnReport,
    second: &mut CapnReport,
) -> (u32, u32)
    ensures report { Agree result.0 first.new result.1 second.new }
    ensures departed { result.0 ≡ 0 → result.1 ≡ 0 → departed.new ≡ also.new }
{
    // The proof of the contract needs the law that at most one mismatch is true of a message.
    mismatches::<Global>();
    let one = capn_departure(alloc, form, bytes, limits, departed, way, first);
    let other = capn_departure(alloc, form, bytes, limits, also, way, second);
    (one, other)
}
