//! The walk over a message from the root, within limits. The result is the message's value, an index of the message's
//! slots, or, for a survey, only totals.
//!
//! - [`resolve`] finds the target of the pointer at a place, or the first fault of that pointer. A target is null, a
//!   capability, or content that lies inside its segment. Landing pads are followed.
//! - [`walk`] returns the value that a message denotes and the number of words paid. If the walk stops at a fault or a
//!   limit, the place and the reason are returned. The price of a visit is paid before any content except a list's tag
//!   is read. So a message with cycles or shared objects costs at most the budget.
//! - [`survey`] pays the same prices and refuses the same messages as [`walk`], but does not make the value.
//!   [`survey_depth`] also finds the least depth limit that admits the message.
//! - [`index`] and [`index_into`] make an entry for each visit of a slot. With the entries the message can be read in
//!   place without further tests. [`index_into_form`] writes the entries in another [`EntryForm`].
//! - [`survey_of`] and [`survey_depth_of`] survey without an allocator, and read the message only through calls that
//!   count the reads. The budget bounds the number of reads.
//! - [`walk_counted`], [`survey_counted`], [`survey_depth_counted`] and [`index_into_counted`] walk, survey and index a
//!   message whose reads are counted. The budget bounds the number of reads.
//! - [`View`] steps from one object to the objects below, and pays from a [`Meter`] for each step.
//!
//! A message is refused in `capn_target` for the fault of a pointer, in `step.rt` for a limit on depth or price, and in
//! `message_walk.rt` or `view.rt` for a root that is missing or is a capability.
//!
//! A message can be any `Space`: a bare segment, a framed message, or a message that owns its segments.
//!
//! ```text
//! let bare = Bare::new(input)?;
//! let walked = walk(alloc, &bare, Limits::usual())?;
//! let text = show(alloc, &walked.tree)?;
//! ```
#![tactic(auto)]

mod digits;
mod entry;
mod entry_form;
mod found;
mod index_visits;
mod kind;
pub mod laws;
mod limits;
mod lists;
mod message_index;
mod message_survey;
mod message_walk;
mod meter;
mod no_memory;
mod price;
mod sizes;
mod slots_left;
mod step;
mod survey_answer;
mod survey_loop;
mod survey_visit;
mod view;
mod walk_answer;
mod walk_visits;

pub use entry::{Entry, Index, Indexed};
pub use entry_form::{EntryForm, Plain};
pub use kind::Kind;
pub use limits::Limits;
pub use message_index::{index, index_into, index_into_counted, index_into_form};
pub use message_survey::{
    survey, survey_counted, survey_depth, survey_depth_counted, survey_depth_of, survey_of,
};
pub use message_walk::{walk, walk_counted};
pub use meter::Meter;
pub use survey_answer::{Measured, Surveyed};
pub use view::View;
pub use walk_answer::{Stopped, Walked};

// The targets of pointers.
pub use capn_target::{Fault, Shape, Target, resolve};

// The elements of a word, for capn_show, and the price of an object, for capn_diagnostics.
pub use digits::{digit, per_word};
pub use price::price_of;
