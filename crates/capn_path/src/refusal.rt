//! The path to the slot at which the walk of a refused message stopped.

ghost use Rattle.std.specs.Prelude.{IfOk, IfSome, IfNone, ◌-◌, ◌≤◌, ◌+◌, ◌*◌};
ghost use Rattle.capn_walk.specs.Accepted.{IsAccepted, IsWalkRefused};
ghost use Rattle.capn_path.specs.Paths.{IsRefusedAt};

use crate::visit::{path_of_visit, path_of_visit_counted};
use capn_target::counted::{CountedSpace, Reads};
use capn_walk::{Limits, Stopped, survey};
use capn_words::{Memory, Space};
use std::alloc::{Allocator, Global};
use std::sync::ledger::Ledger;

/// The refusal of a message: the stop of the walk, and the path to the slot at which the walk stopped.
#[derive(Debug, Drop)]
pub struct Refused<A: Allocator = Global> {
    /// The stop of the walk, as [`survey`] returns it: the reason, the place, the number of words paid, and the number
    /// of visits.
    pub stopped: Stopped,
    /// The numbers that lead to the slot from the root. The path is empty for the root's slot, and if there is no root.
    pub path: Vec<u32, A>,
}

/// Tests whether the message `space` is refused within `limits`, and finds the path to the slot at which the walk
/// stopped. Returns `None` if the message is accepted.
///
/// The message is surveyed, and if it is refused, the visits up to the refused visit are repeated. Memory: the path, on
/// `alloc`, with at most two numbers for each level of the depth limit.
pub fn path_of_refusal<S: Space, A: Allocator + Copy>(
    alloc: A,
    space: &S,
    limits: Limits,
) -> Result<Option<Refused<A>>, Memory>
    ensures refused { IfOk result (λ r. IfSome r
        (λ f. IsRefusedAt (S.message space.now) limits f.stopped f.path.items)) }
    ensures accepted { IfOk result (λ r. IfNone r (IsAccepted (S.message space.now) limits)) }
{
    match survey(alloc, space, limits) {
        Ok(_) => Ok(None),
        Err(stopped) => {
            let path = path_of_stop(alloc, space, limits, stopped)?;
            Ok(Some(Refused { stopped, path }))
        }
    }
}

/// Finds the path to the slot at which the walk of the message `space` stopped. The path is empty for the root's slot,
/// and if there is no root.
///
/// `stopped` is the stop of the walk of `space` within `limits`, as [`survey`] returns it. The visits up to the refused
/// visit are repeated, without a survey. Memory: the path, on `alloc`, with at most two numbers for each level of the
/// depth limit.
pub fn path_of_stop<S: Space, A: Allocator + Copy>(
    alloc: A,
    space: &S,
    limits: Limits,
    stopped: Stopped,
) -> Result<Vec<u32, A>, Memory>
    requires refused { IsWalkRefused (S.message space.now) limits
        stopped.fault stopped.place stopped.paid stopped.visits }
    ensures { IfOk result (λ path. IsRefusedAt (S.message space.now) limits stopped path.items) }
{
    if stopped.visits == 0 {
        return Ok(Vec::new(alloc));
    }
    match path_of_visit(alloc, space, limits, stopped.visits - 1)? {
        Some(visited) => Ok(visited.path),
        None => unreachable!(),
    }
}

/// Finds the path to the slot at which the walk of the message `space` stopped, and counts reads and turns of loops in
/// `reads`. The results are those of [`path_of_stop`].
///
/// The count grows by at most ten for each visit of the stopped walk, including the refused visit. So the budget of the
/// walk bounds the work for any message.
#[inline(always)]
pub fn path_of_stop_counted<S: Space, A: Allocator + Copy, L: Ledger>(
    alloc: A,
    space: &CountedSpace<'_, S, L>,
    limits: Limits,
    stopped: Stopped,
    reads: &mut Reads<L>,
) -> Result<Vec<u32, A>, Memory>
    requires refused { IsWalkRefused space.now limits stopped.fault stopped.place stopped.paid stopped.visits }
    ensures path { IfOk result (λ path. IsRefusedAt space.now limits stopped path.items) }
    ensures reads { reads.new ≤ reads.old + 10 * stopped.visits }
{
    if stopped.visits == 0 {
        return Ok(Vec::new(alloc));
    }
    match path_of_visit_counted(alloc, space, limits, stopped.visits - 1, reads)? {
        Some(visited) => Ok(visited.path),
        None => unreachable!(),
    }
}
