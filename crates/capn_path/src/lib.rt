//! The path to a slot of a message: the numbers that lead to the slot from the root.
//!
//! A number leads from a struct to a slot, or from a list of pointers to an element. From a list of structs a number
//! leads to a row, and the next number to a slot of the row. The path to the root's slot has no numbers.
//!
//! - [`path_of_refusal`] surveys a message. If the message is refused, the result is the reason, and the path to the
//!   slot at which the walk stopped.
//! - [`path_of_stop`] finds the path to the slot at which a walk has stopped.
//! - [`path_of_stop_counted`] finds the path to the slot of a stop in a message whose reads are counted. The number of
//!   visits bounds the number of reads.
//! - [`path_of_visit`] finds the path to the slot of a visit, given the number of the visit.
//! - [`holder_of`] finds the object that holds the slot to which a path leads.
//! - [`seek`] finds the first slot at which an [`Aim`] finds something, and the path to that slot.
//! - Module [`laws`] states facts about paths: each visit has at most one path, and each path to the slot of a visit
//!   gives exactly one object that holds the slot, unless the path is empty.
//!
//! ```text
//! if let Some(refused) = path_of_refusal(alloc, &message, limits)? {
//!     report(refused.stopped, &refused.path);
//! }
//! ```
#![tactic(auto)]

mod aim;
mod holder;
pub mod laws;
mod refusal;
mod search;
mod visit;

pub use aim::Aim;
pub use holder::{Holder, holder_of};
pub use refusal::{Refused, path_of_refusal, path_of_stop, path_of_stop_counted};
pub use search::seek;
pub use visit::{Visited, path_of_visit};
