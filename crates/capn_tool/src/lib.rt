//! The program `capn`, over any reader and writers: its command line, and its runs.
//!
//! [`program`] is the complete program, from the words of the command line to the exit status. [`invocation_of`], of
//! [`capn_args`], reads the words and returns the invocation that they stand for. An invocation starts one run, and
//! [`program`] lists these runs.
//!
//! One kind of run carries out a command of [`capn_commands`]: [`command_of`] reads the words of the command, [`run`]
//! carries the command out, and [`end`] reports how the run ended.
//!
//! ```text
//! let invocation = invocation_of(alloc, &["capn", "list", "--keep-going"])?;
//! ```
#![tactic(auto)]

mod annotate_run;
mod chosen_runs;
mod cmp_end;
pub mod laws;
mod message_run;
mod only_run;
mod output;
mod part_run;
mod program_run;
mod run_end;
mod unordered;

pub use annotate_run::annotate_messages;
pub use only_run::pick_only;
pub use part_run::show_parts;
pub use program_run::program;

// The command line: the words, and the invocation that is made of the words.
pub use capn_args::{
    Explanation, Flow, Invocation, Make, Only, Show, Usage, command_of, invocation_of,
    program_command,
};

// The commands over messages and bytes, the function `run` that carries a command out, and the end of a run.
pub use capn_commands::{Command, MessageText, ToolFault, end, fault_text, run, status};

// Types in the signatures of the functions that this crate exports.
pub use capn_annotate::AnnotateOrder;
pub use capn_archive::{ArchiveFault, ArchiveOrder, FilterOrder, Task, UniqOrder};
pub use capn_canon::{Form, Limits, Refusal, Tariff};
pub use capn_cmp::{CmpFault, CmpOrder, Comparison};
pub use capn_commands::FlowFault;
pub use capn_explain::{Explain, ExplainRefused};
pub use capn_make::{MakeFault, Misfit};
pub use capn_serve::{Pick, Position, RunFault, SkipFault, Skipped, StreamForm};
pub use capn_show::Style;
pub use capn_value::Memory;
pub use capn_words::Watched;
