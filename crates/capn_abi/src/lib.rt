//! The arguments and reports of the calls for C: the numbers of forms, limits and styles, and the statuses of refusals.
//!
//! - [`form_of`], [`flat_form_of`], [`limits_of`] and [`style_of`] read the numbers that a caller passes, and refuse a
//!   number that is out of its range.
//! - [`CapnReport`] is the report that a call fills in, in addition to its status. [`refuse`] and [`refuse_packed`]
//!   give the status and the report of a refusal. Unless the status is [`MEMORY`], no other refusal has the same status
//!   and the same report.
//! - [`deliver`] writes an answer into the caller's buffer if the answer fits.
//!
//! ```text
//! match limits_of(limits) {
//!     Ok(limits) => answer(limits, report),
//!     Err(status) => status,
//! }
//! ```
#![tactic(auto)]

mod limits;
mod output;
mod report;
mod status_codes;
mod styles;

pub use limits::{CapnLimits, flat_form_of, form_of, limits_of};
pub use output::deliver;
pub use report::{CapnReport, answer_of, report_at};
pub use status_codes::{
    BAD_FORM, BAD_LIMITS, BAD_STYLE, BAD_TARIFF, DIFFERENT, DONE, MEMORY, NO_ROOM, NOT_CANONICAL,
    NOT_WHOLE, PACKED_CUT, PACKED_TOO_LONG, code_of_frame, number_of_frame, refuse, refuse_packed,
};
pub use styles::style_of;

// The types that the signatures of this crate name.
pub use capn_canon::{Form, Refusal};
pub use capn_pack::UnpackFault;
pub use capn_show::Style;
pub use capn_stream::FrameFault;
pub use capn_walk::Limits;
