//! Runs of the six commands over messages and bytes: `canonical`, `show`, `check`, `hash`, `pack` and `unpack`.
//!
//! [`run`] carries out a [`Command`]: it writes the text for the input, and returns the outcome of the run. [`status`]
//! and [`fault_text`] return the exit status and the text for the user, and [`end`] writes that text. `show`, `check`
//! and `hash` take one bare message, or each message of a stream while the stream is read. The stream may be packed.
//! `canonical` and [`Command::One`] take one message in any of the three forms. [`serve_one`] serves exactly one
//! message in a frame, for any service of [`capn_serve`].
//!
//! ```text
//! let command = Command::Canonical(Form::Bare, Limits::usual());
//! let outcome = run(alloc, command, &mut Watched::new(input), &mut Watched::new(output));
//! ```
#![tactic(auto)]

mod bare_message;
mod command;
mod command_run;
mod exit_status;
mod fault;
mod flow_fault;
pub mod laws;
mod message_marks;
mod message_stream;
mod message_text;
mod message_texts;
mod one_message;
mod pack_run;
mod part_texts;
mod pending;
mod plan;
mod show_run;
mod unpack_run;
mod whole_input;

pub use command::Command;
pub use command_run::run;
pub use exit_status::{end, fault_text, status};
pub use fault::ToolFault;
pub use flow_fault::FlowFault;
pub use one_message::serve_one;
pub use pack_run::pack_stream;
pub use part_texts::PartTexts;
pub use plan::MessageText;
pub use show_run::run_show;
pub use unpack_run::unpack_stream;

// Types of the signatures above.
pub use capn_canon::{Form, Limits, Refusal, Tariff};
pub use capn_value::Memory;
pub use capn_words::Watched;
