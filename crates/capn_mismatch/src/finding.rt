//! A mismatch, and the number of canonical bytes that were made to find the mismatch.

ghost use Rattle.std.specs.Prelude.{◌≡◌, None};

use crate::answer::Mismatch;
use std::alloc::{Allocator, Global};

/// The mismatch of a message with its canonical bytes, and the number of canonical bytes, if canonical bytes were made
/// to find the mismatch.
#[derive(Drop)]
pub struct Finding<A: Allocator = Global> {
    /// `Canonical`, or the first reason why the message isn't canonical.
    pub mismatch: Mismatch<A>,
    /// The number of canonical bytes that were made, or `None` if no canonical bytes were made.
    pub length: Option<u64>,
}

impl<A: Allocator> Finding<A> {
    /// Returns the finding of a `mismatch` for which no canonical bytes were made.
    pub fn without_bytes(mismatch: Mismatch<A>) -> Finding<A>
        ensures mismatch { result.mismatch ≡ mismatch }
        ensures length { result.length ≡ None }
    {
        Finding {
            mismatch,
            length: None,
        }
    }
}
