//! The figures of an accepted message: price, visits, depth, first capability, and whether it is canonical.

ghost use Rattle.capn_canon.specs.Measure.{IsMeasure};
ghost use Rattle.capn_canon.specs.Refusal.{IsUnaccepted};
ghost use Rattle.capn_archive.specs.Tasks.{Finds};

use capn_canon::{MeasuredBare, Refusal, measure};
use capn_serve::ServeFault;
use capn_walk::Limits;
use capn_words::Space;
use std::alloc::Allocator;

/// Returns the figures of the message `space` if it is accepted within `limits`, or else the refusal of its walk. The
/// call takes no memory.
pub(crate) fn measured_of<S: Space, A: Allocator + Copy>(
    alloc: A,
    space: &S,
    limits: Limits,
) -> Result<MeasuredBare, ServeFault>
    ensures { Finds (IsMeasure (S.message space.now) limits) (IsUnaccepted (S.message space.now) limits) ⊥ result }
{
    match measure(alloc, space, limits) {
        Ok(measured) => Ok(measured),
        Err(stopped) => Err(ServeFault::Refused(Refusal::Walk(stopped))),
    }
}
