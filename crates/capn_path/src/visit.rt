//! The path to the slot of a visit.

ghost use Rattle.std.specs.Prelude.{◌<◌, ◌≤◌, ◌+◌, ◌*◌, IfOk, IfSome, IfNone, OnErr};
ghost use Rattle.capn_path.specs.Paths.{IsVisited, IsNotVisited};

use crate::aim::Aim;
use crate::search::{seek, seek_counted};
use capn_target::counted::{self, CountedSpace, Reads};
use capn_target::{Fault, Target, segment_length};
use capn_walk::Limits;
use capn_words::{Memory, Place, Space};
use std::alloc::{Allocator, Global};
use std::sync::ledger::Ledger;

/// A slot that a walk visits, and the path to that slot.
#[derive(Debug, Drop)]
pub struct Visited<A: Allocator = Global> {
    /// The numbers that lead to the slot from the root. The path to the root's slot has no numbers.
    pub path: Vec<u32, A>,
    /// The place of the slot.
    pub place: Place,
}

/// The aim that finds one visit by its number.
#[derive(Drop)]
struct Numbered {
    /// The number of visits still to be made before the visit to be found.
    left: u32,
}

impl Aim for Numbered {
    ghost use Rattle.capn_path.specs.inner.Numbered.{found_at, one_less};

    type Found = Place;

    ghost finds = { found_at };

    ghost next = { one_less };

    fn test(&mut self, at: Place, _named: Result<Target, Fault>) -> Option<Place> {
        if self.left == 0 {
            return Some(at);
        }
        self.left -= 1;
        None
    }
}

/// Finds the slot that the walk of the message `space` visits after `number` other visits, and the path to that slot.
/// Returns `None` if there are at most `number` visits.
///
/// The walk is repeated up to that slot, with at most four words read for each visit. Of `limits` only the depth is
/// used. No prices are paid, and no budget bounds the work, so `number` should be below the number of visits that a
/// survey of `space` returned. Memory: the path, on `alloc`, with at most two numbers per level of the depth limit.
pub fn path_of_visit<S: Space, A: Allocator + Copy>(
    alloc: A,
    space: &S,
    limits: Limits,
    number: u32,
) -> Result<Option<Visited<A>>, Memory>
    ensures found { IfOk result (λ r. IfSome r
        (λ v. IsVisited (S.message space.now) limits number v.path.items v.place)) }
    ensures none { IfOk result (λ r. IfNone r (IsNotVisited (S.message space.now) limits number)) }
    // If `result` is an error, `number` is above 0. Visit 0 is the visit of the root's slot, whose path is empty.
    ensures memory { OnErr result (0 < number) }
{
    if segment_length(space, Place::ROOT.segment) == 0 {
        return Ok(None);
    }
    match seek(alloc, space, limits.depth(), Numbered { left: number })? {
        Some((place, path)) => Ok(Some(Visited { path, place })),
        None => Ok(None),
    }
}

/// Finds the slot that the walk of the message `space` visits after `number` other visits, and the path to that slot.
/// Counts reads and turns of loops in `reads`. The results are those of [`path_of_visit`].
///
/// The count grows by at most ten for each visit up to that slot.
#[inline(always)]
pub fn path_of_visit_counted<S: Space, A: Allocator + Copy, L: Ledger>(
    alloc: A,
    space: &CountedSpace<'_, S, L>,
    limits: Limits,
    number: u32,
    reads: &mut Reads<L>,
) -> Result<Option<Visited<A>>, Memory>
    ensures found { IfOk result (λ r. IfSome r (λ v. IsVisited space.now limits number v.path.items v.place)) }
    ensures none { IfOk result (λ r. IfNone r (IsNotVisited space.now limits number)) }
    ensures memory { OnErr result (0 < number) }
    ensures reads { reads.new ≤ reads.old + 10 * (number + 1) }
{
    if counted::segment_length(space, Place::ROOT.segment, reads) == 0 {
        return Ok(None);
    }
    match seek_counted(
        alloc,
        space,
        limits.depth(),
        Numbered { left: number },
        reads,
    )? {
        Some((place, path)) => Ok(Some(Visited { path, place })),
        None => Ok(None),
    }
}
