//! The first capability of a message, in preorder.

ghost use Rattle.std.specs.Prelude.{◌≡◌, ℕ, Some, IfOk};
ghost use Rattle.capn_value.specs.Tree.{Tree as Value};
ghost use Rattle.capn_value.specs.FirstCap.{first_cap};
ghost use Rattle.capn_walk.specs.Accepted.{IsValueOf};
ghost use Rattle.capn_mismatch.specs.Capability.{IsFirstCapability};

use capn_path::{Aim, seek};
use capn_target::{Fault, Target};
use capn_walk::Limits;
use capn_words::{Memory, Place, Space};
use std::alloc::Allocator;

/// The aim of a search for a capability. The search returns the capability's index.
#[derive(Drop)]
struct Capability;

impl Aim for Capability {
    ghost use Rattle.capn_mismatch.specs.inner.Search.{capability, same};

    type Found = u32;

    ghost finds = { capability };

    ghost next = { same };

    fn test(&mut self, _at: Place, named: Result<Target, Fault>) -> Option<u32> {
        match named {
            Ok(target) => match target {
                Target::Cap(index) => Some(index),
                Target::Nil => None,
                Target::Content { .. } => None,
            },
            Err(_) => None,
        }
    }
}

/// Finds the first capability of the message `space` in preorder. The message must have one. Returns the capability's
/// index, and the path to the capability's slot. `Memory` is returned if an allocation on `alloc` was refused.
pub fn first_capability<S: Space, A: Allocator + Copy>(
    alloc: A,
    space: &S,
    limits: Limits,
) -> Result<(u32, Vec<u32, A>), Memory>
    requires some { (v : Value) × (k : ℕ) × IsValueOf (S.message space.now) limits v × (first_cap v ≡ Some k) }
    ensures found { IfOk result (λ r. IsFirstCapability (S.message space.now) limits r.0 r.1.items) }
    ensures index { IfOk result (λ r. (v : Value) → IsValueOf (S.message space.now) limits v
        → first_cap v ≡ Some r.0) }
{
    match seek(alloc, space, limits.depth(), Capability)? {
        Some(found) => Ok(found),
        None => unreachable!(),
    }
}
