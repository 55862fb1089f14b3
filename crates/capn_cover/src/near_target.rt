//! The target of a pointer that names content in its own segment.

ghost use Rattle.std.specs.Prelude.{◌≡◌, ◌<◌};
ghost use Rattle.capn_words.specs.Message.{IsMessage};
ghost use Rattle.capn_target.specs.Target as spec;

use capn_target::counted::{count_reads, near};
use capn_target::segment_length;
use capn_walk::{Fault, Target};
use capn_words::{Place, Pointer, Space};
use std::marker::Brand;
use std::sync::ledger::{Blank, Ledger};

/// Finds the target of the slot at `at`, whose `pointer` names a near struct or a near list, or the first fault of that
/// pointer. `resolve` gives the same answer, but reads the pointer again.
#[inline(always)]
pub fn near_target<S: Space>(space: &S, at: Place, pointer: Pointer) -> Result<Target, Fault>
    requires message { IsMessage (S.message space.now) }
    requires pointer { spec.target_from (S.message space.now) at.segment at.word 0 pointer
        ≡ spec.target (S.message space.now) at }
    ensures { result ≡ spec.target (S.message space.now) at }
{
    near_with_ledger::<S, Brand>(space, at, pointer, Blank::new(1))
}

/// Finds the target of the slot at `at`, as [`near_target`] does, with a count in the new ledger `blank`.
#[inline(always)]
fn near_with_ledger<S: Space, L: Ledger>(
    space: &S,
    at: Place,
    pointer: Pointer,
    blank: Blank,
) -> Result<Target, Fault>
    requires name { blank.name ≡ L.name }
    requires parts { blank.parts ≡ L.parts }
    requires one { 0 < blank.parts }
    requires message { IsMessage (S.message space.now) }
    requires pointer { spec.target_from (S.message space.now) at.segment at.word 0 pointer
        ≡ spec.target (S.message space.now) at }
    ensures { result ≡ spec.target (S.message space.now) at }
{
    let size = segment_length(space, at.segment);
    let (space, mut reads) = count_reads::<S, L>(space, blank);
    near(&space, at.segment, size, at.word, 0, pointer, &mut reads)
}
