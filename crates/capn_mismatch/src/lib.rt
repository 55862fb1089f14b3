//! The mismatch of a message with its canonical bytes: the first reason why the message isn't canonical.
//!
//! - [`mismatch`] tests whether an accepted message is canonical, and if not, finds the first reason. The reasons are
//!   more than one segment, a capability, a word that differs from the same word of the canonical bytes, and a word
//!   after the end of the canonical bytes.
//! - [`Whose`] is the owner of a word that differs, given by the path to a slot.
//! - [`lines_of_measured`] returns [`CanonicalLines`], the lines that explain the mismatch of an accepted message. Its
//!   argument `measured` is the measure of the message. [`measure_surveyed`] makes the measure from a survey.
//!
//! ```text
//! match mismatch(alloc, &message, limits)? {
//!     Mismatch::Canonical => tell("yes"),
//!     Mismatch::Word { word, whose, .. } => report(word, whose),
//!     ..
//! }
//! ```
#![tactic(auto)]

mod accepted;
mod answer;
mod canonical_lines;
mod capability;
mod descent;
mod difference;
mod finding;
pub mod laws;
mod likely;
mod message_mismatch;
mod only_segment;
mod owner;
mod slot_rows;
mod surveyed;
mod whose;
mod word_kind;

pub use accepted::lines_of_measured;
pub use answer::Mismatch;
pub use canonical_lines::CanonicalLines;
pub use message_mismatch::mismatch;
pub use surveyed::measure_surveyed;
pub use whose::Whose;
