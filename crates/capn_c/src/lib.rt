//! The library for C: one export for each call. The buffers belong to the caller.
//!
//! Each export returns a status and fills in a [`CapnReport`]. The statuses up to 7 concern the call.
//! - 0: the call succeeded.
//! - 1: the buffer is too short for the result.
//! - 2, 3, 4 and 6: the form, a limit, the tariff or the style is out of its range.
//! - 5: the bytes are not canonical.
//! - 7: the values of two messages differ.
//!
//! Status 9 says that the scratch memory is too short. Status 8 and all statuses from 16 on stand for a refusal. The
//! report has the numbers that belong to the status, and 0 in all other fields. A caller must ensure only what the
//! types say: the memory of the arguments exists, and no written memory overlaps another argument.
#![tactic(auto)]

pub mod agreement;
mod annotate_call;
mod asked_beside;
mod canonical_call;
mod canonical_fill;
mod canonical_scratch_call;
mod canonical_segments_call;
mod check_call;
mod check_segments_call;
mod compared;
mod counted_measure;
pub mod decision;
mod departed;
mod departure_call;
mod entries;
mod figures;
mod first_call;
mod frame_need;
mod hash_call;
mod hash_segments_call;
mod held_message;
mod index_call;
mod is_canonical_call;
pub mod laws;
mod message_digest;
mod message_figures;
mod message_index;
mod message_text;
mod pack_calls;
pub mod packing_decision;
pub mod path_decision;
mod path_numbers;
mod refusal_way_call;
mod same_call;
mod same_surveyed;
mod show_call;
mod survey_call;
mod survey_segments_call;
mod unpack_some_call;
mod written_message;

pub use capn_abi::{CapnLimits, CapnReport};
pub use capn_answers::CapnLine;
pub use departed::CapnDeparted;
pub use entries::CapnEntry;
pub use figures::CapnFigures;
