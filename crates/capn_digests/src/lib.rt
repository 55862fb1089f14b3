//! A set of SHA-256 digests that grows.
//!
//! A [`DigestSet`] takes digests and reports for each whether it was inserted before. A set has three parts: a list of
//! digests, a table and a tree. The table has buckets of slots, which say where in the list a digest may be. The tree
//! takes a digest if the bucket of the digest is full, or if the list has 2^32 - 1 digests. A lookup reads at most one
//! bucket, sixteen digests and one path of the tree, whatever the digests are.
//!
//! ```text
//! let mut digests = DigestSet::new(alloc);
//! let came_before = digests.insert(digest)?;
//! ```
#![tactic(auto)]

mod digest_set;
mod doubling;
mod look;
mod slot;

pub use digest_set::DigestSet;
