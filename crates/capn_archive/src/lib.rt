//! The commands of the program over an archive, which is a stream of messages or a bare input: `list`, `limits`,
//! `canonical --framed`, `uniq` and `filter`.
//!
//! [`run_archive`] carries out an [`ArchiveOrder`] with an [`ArchiveService`], which writes the text of the order's
//! [`Task`] for each message and at the end. [`run_uniq`] carries out a [`UniqOrder`] with a [`UniqService`], which
//! leaves out each message whose canonical bytes equal an earlier message's. [`run_filter`] carries out a
//! [`FilterOrder`] with a [`FilterService`], which lets accepted messages through. [`capn_serve`] has the function
//! [`run_messages`](capn_serve::run_messages), which runs each of these services.
#![tactic(auto)]

mod archive_run;
mod archive_service;
mod canonical_frame;
mod digest;
mod fault;
mod filter_order;
mod filter_run;
mod filter_service;
pub mod laws;
mod limits_report;
mod line;
mod lines;
mod measured;
mod message_head;
mod tally;
mod task;
mod uniq_order;
mod uniq_run;
mod uniq_service;

pub use archive_run::run_archive;
pub use archive_service::ArchiveService;
pub use capn_serve::{Position, RunFault, ServeFault, Service, SkipFault, Skipped};
pub use fault::ArchiveFault;
pub use filter_order::FilterOrder;
pub use filter_run::run_filter;
pub use filter_service::FilterService;
pub use task::{ArchiveOrder, Task};
pub use uniq_order::UniqOrder;
pub use uniq_run::run_uniq;
pub use uniq_service::UniqService;
