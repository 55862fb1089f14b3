//! The type `Walked`, the outcome of the walk of a message.

use capn_path::Refused;
use capn_walk::Surveyed;
use std::alloc::{Allocator, Global};

/// The outcome of the walk of a message. (Our own.)
#[derive(Debug, Drop)]
pub enum Walked<A: Allocator = Global> {
    /// The survey of an accepted message: the price, the number of visits, and the first capability.
    Accepted(Surveyed),
    /// The place at which the walk of a refused message stopped, the reason, and the path to that place.
    Refused(Refused<A>),
}
