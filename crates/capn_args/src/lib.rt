//! The command line of the program `capn`: its commands and options, and the invocation that words mean.
//!
//! [`invocation_of`] reads words that mean a command of [`capn_commands`] or a run over an input of any length.
//! [`command_of`] reads only words that mean a command of [`capn_commands`]. Words that mean no invocation are refused
//! with a [`Usage`]: a request for help or the version, a mistake, or a refused allocation.
//!
//! A row of the table in `rows.rt` is an option with its help. The parser is built from the rows.
//!
//! ```text
//! let invocation = invocation_of(alloc, &["capn", "list", "--keep-going"])?;
//! ```
#![tactic(auto)]

mod archives_help;
mod bytes_help;
mod command_invocation;
mod command_line;
mod explain_options;
mod help;
mod input_options;
mod invocation;
pub mod laws;
mod message_number;
mod messages_help;
mod mistakes;
mod option_mistakes;
mod option_row;
mod option_values;
mod options;
mod path;
mod pick_options;
mod range_list;
mod rows;
mod show_options;
mod subcommands;
mod usage;

pub use command_invocation::command_of;
pub use command_line::invocation_of;
pub use help::VERSION_LINE;
pub use invocation::{Explanation, Flow, Invocation, Make, Only, Show};
pub use path::numbers_of;
pub use range_list::ranges_in;
pub use subcommands::program_command;
pub use usage::Usage;

// Types of the signatures above.
pub use capn_annotate::AnnotateOrder;
pub use capn_archive::{ArchiveOrder, FilterOrder, Task, UniqOrder};
pub use capn_canon::{Form, Limits, Tariff};
pub use capn_cmp::CmpOrder;
pub use capn_commands::Command;
pub use capn_explain::{Explain, ExplainRefused};
pub use capn_serve::{Pick, Range, StreamForm};
pub use capn_show::Style;
