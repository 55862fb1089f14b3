//! The law of mismatches, as the contract of a function that only calls the laws that the proof needs.

ghost use Rattle.capn_mismatch.specs.Laws.{MismatchesAreOne};

use capn_canon::laws::page;
use capn_path::laws::paths;
use std::alloc::Allocator;

/// States that at most one mismatch is true of a message within limits. If two are, they have the same kind, the same
/// numbers and words, and the same path.
pub fn mismatches<A: Allocator>()
    ensures { MismatchesAreOne A }
{
    // The proof needs the law that canonical words follow the rules of the encoding page, and the law that one path at
    // most belongs to each visit.
    page();
    paths();
}
