//! The command `explain`: the text about one message of an input, or about each refused message.
//!
//! [`run_explain`] explains the first refused message, or the message with a given number ([`Explain`]). The lines
//! about this message are written at the end. [`run_explain_refused`] explains every refused message
//! ([`ExplainRefused`]). Both runs pass the messages to the service [`Reporter`], by the function
//! [`run_messages`](capn_serve::run_messages) of [`capn_serve`].
#![tactic(auto)]

mod account;
mod closing;
mod explain;
mod explain_refused;
mod explain_run;
mod fault_lines;
mod message_lines;
mod one_reporter;
mod order;
mod outcome;
mod refused_run;
mod reporter;
mod what_came;

pub use account::Account;
pub use explain::Explain;
pub use explain_refused::ExplainRefused;
pub use explain_run::run_explain;
pub use order::{Order, Wanted};
pub use outcome::Outcome;
pub use refused_run::run_explain_refused;
pub use reporter::Reporter;
