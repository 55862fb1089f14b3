//! Calls that explain why one message, in any of the three forms, is refused or is not canonical.
//!
//! - [`walk_in`] returns the survey of an accepted message. If the walk is refused, the call returns the reason and the
//!   path to the slot at which the walk stopped. [`walk_in_of`] is the same call on any [`capn_canon::AskedInput`], so
//!   a clause bounds how often the message is read.
//! - [`mismatch_and_survey_in`] finds the first reason why an accepted message is not canonical, such as the first word
//!   that differs from the canonical bytes. It also returns the survey of the message.
//! - [`lines_in`] writes the lines of an accepted message as records of numbers: for words one after another that are
//!   alike, what they are, how often they are read, and the pointer to whose object they belong.
//!
//! Each call unpacks or unframes the bytes at most once. Bytes that are no message are refused with the refusal of
//! [`capn_canon::survey_bytes`].
//!
//! ```text
//! match walk_in(alloc, Form::Packed, bytes, limits)? {
//!     Walked::Accepted(surveyed) => tell(surveyed.paid),
//!     Walked::Refused(refused) => report(refused.stopped, &refused.path),
//! }
//! ```
#![tactic(auto)]

mod line_input;
mod line_record;
mod mismatch_input;
mod path_input;
mod walked;

pub use line_input::{Annotated, lines_in};
pub use line_record::CapnLine;
pub use mismatch_input::{SurveyedMismatch, mismatch_and_survey_in};
pub use path_input::{walk_in, walk_in_of};
pub use walked::Walked;

// The types that the signatures of this crate name.
pub use capn_canon::{Form, Refusal};
pub use capn_mismatch::{Mismatch, Whose};
pub use capn_path::Refused;
pub use capn_walk::{Limits, Surveyed};
