//! The comparison of the messages of a stream with the first of them: the command `cmp`.
//!
//! [`run_cmp`] carries out a [`CmpOrder`] with the service [`CmpService`]. Two values are the same if their canonical
//! bytes are equal. At the first message that differs, the service writes the position of that message, and the first
//! lines that differ in the texts of both values. [`capn_marks`] makes these texts. The loop over the messages is in
//! [`capn_serve`].
#![tactic(auto)]

mod beginning;
mod cmp_order;
mod cmp_run;
mod cmp_service;
mod fault;
pub mod laws;
mod lines_apart;
mod report;

pub use cmp_order::CmpOrder;
pub use cmp_run::{Comparison, run_cmp};
pub use cmp_service::CmpService;
pub use fault::CmpFault;
