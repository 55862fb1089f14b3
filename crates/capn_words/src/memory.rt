//! The error of a call that ran out of memory.

ghost use Rattle.std.specs.Prelude.{Some, codes};

use std::alloc::AllocError;
use std::error::Error;
use std::fmt;

/// The error of a call that could not allocate the memory that it needs.
#[derive(Clone, Copy, Debug, PartialEq, Eq)]
pub struct Memory;

impl From<AllocError> for Memory {
    fn from(_: AllocError) -> Memory {
        Memory
    }
}

impl fmt::Display for Memory {
    ghost output = { λ _. Some (codes "out of memory") };

    fn fmt<W: fmt::Write>(&self, f: &mut fmt::Formatter<W>) -> fmt::Result {
        f.write_str("out of memory")
    }
}

impl Error for Memory {}
