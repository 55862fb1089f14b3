//! The targets of a message's pointers. A target is null, a capability, or content that lies within its segment.
//!
//! - [`resolve`] finds the target of the pointer at any place, or the first fault of that pointer. Far pointers are
//!   followed through their landing pads.
//! - [`segment_length`], [`place`], [`start_of`], [`pointer_at`] and [`content_words`] are smaller steps, for callers
//!   that need only a part of [`resolve`].
//!
//! The calls read any `Space`, and take no memory. The module [`counted`] has `resolve`, `segment_length`, `pointer_at`
//! and further steps, for a message whose reads are counted. Its `near` takes a pointer that leads to content in the
//! pointer's own segment. Its `node_at` and `many_at` take the start and the form of the content.
#![tactic(auto)]

mod asked;
mod content;
pub mod counted;
mod paid_bytes;
mod plain;
mod reader;
mod slot_target;
mod target;

pub use content::{content_words, place, start_of};
pub use plain::{pointer_at, resolve, segment_length};
pub use target::{Fault, Shape, Target};
