//! An allocator for tests. It refuses allocations by their number or by their size, and counts them.
#![tactic(auto)]

mod account;
mod allocator;

pub use allocator::Refusing;
