//! The search for the owner of a word of canonical bytes.

ghost use Rattle.std.specs.Prelude.{◌<◌, [], ◌∷◌, length, IfOk};
ghost use Rattle.capn_value.specs.Cost.{base};
ghost use Rattle.capn_walk.specs.Accepted.{root};
ghost use Rattle.capn_mismatch.specs.Owner.{IsOwner, place};
ghost use Rattle.capn_mismatch.specs.inner.Owned.{HasOwner};
ghost use Rattle.capn_mismatch.specs.inner.Reached.{Reaches};

use crate::descent::descend;
use crate::whose::Whose;
use crate::word_kind::{Owner, WordKind};
use capn_path::seek;
use capn_walk::Limits;
use capn_words::{Bare, Memory, Place};
use std::alloc::Allocator;

/// Finds the owner of `word` in the `canonical` bytes. The word is a pointer, a tag, or the last word of a list of
/// small numbers. `Memory` is returned only if an allocation on `alloc` was refused.
pub fn owner<A: Allocator + Copy>(
    alloc: A,
    canonical: &Bare<'_>,
    limits: Limits,
    word: u32,
) -> Result<Whose<A>, Memory>
    requires some { 0 < length canonical.now }
    requires owned { HasOwner canonical.now limits word }
    ensures { IfOk result (λ whose. IsOwner canonical.now limits word whose) }
{
    let (found, path) = slot_of(alloc, canonical, limits, word)?;
    match found {
        WordKind::Pointer => Ok(Whose::Pointer(path)),
        WordKind::Tag => Ok(Whose::Tag(path)),
        WordKind::LastWord => Ok(Whose::LastWord(path)),
    }
}

/// Finds the slot that owns `word`. Returns the kind of the word, and the path to the slot. A direct descent is tried
/// first. If it finds no slot, a full search follows, which always finds one.
fn slot_of<A: Allocator + Copy>(
    alloc: A,
    canonical: &Bare<'_>,
    limits: Limits,
    word: u32,
) -> Result<(WordKind, Vec<u32, A>), Memory>
    requires some { 0 < length canonical.now }
    requires owned { HasOwner canonical.now limits word }
    ensures { IfOk result (λ r. Reaches (canonical.now ∷ []) (base limits.tariff) (place word) limits.depth root
        [] r.1.items r.0) }
{
    let mut path = Vec::new(alloc);
    let word = Place { segment: 0, word };
    match descend(canonical, Place::ROOT, limits.depth(), word, &mut path)? {
        Some(found) => return Ok((found, path)),
        None => {}
    }
    match seek(alloc, canonical, limits.depth(), Owner { word })? {
        Some(found) => Ok(found),
        None => unreachable!(),
    }
}
