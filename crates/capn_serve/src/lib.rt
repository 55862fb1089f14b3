//! The loops that read an input in chunks, and hand each message of the input to a service.
//!
//! A [`Service`] is a fold over messages, and is itself the state of that fold. A [`Run`] is a service with the
//! position of the next message. [`run_stream`], [`run_packed`] and [`run_bare`] are the loops over the three forms.
//! [`serve_form`] runs the loop for a given form. A loop reads no further once the service is finished.
//! [`serve_form_with`] also stores the bytes of an unfinished message in a [`Begun`]. [`run_messages`] carries out the
//! complete run of a service that has a [`Finish`].
//!
//! [`run_only`] and [`run_pick`] write the frames of chosen messages byte for byte, and end after the last chosen
//! message.
#![tactic(auto)]

mod adding;
mod bare_run;
mod begun;
mod chunk;
mod ending;
mod fault;
mod finish;
mod form_run;
mod intake;
pub mod laws;
mod line;
mod message;
mod number_line;
mod output;
mod packed;
mod packed_run;
mod pick;
mod pick_run;
mod picker;
mod position;
mod refusal_line;
mod service;
mod skip_fault;
mod skipped;
mod stream;
mod stream_run;
mod table;
mod whole_input;

pub use adding::add_bytes;
pub use bare_run::{read_bare, run_bare};
pub use begun::Begun;
pub use chunk::CHUNK;
pub use ending::{Ending, end, status};
pub use fault::{RunFault, ServeFault, fault_of_stop};
pub use finish::{Finish, run_messages};
pub use form_run::{serve_form, serve_form_with};
pub use line::Line;
pub use number_line::NumberLine;
pub use output::flush_long;
pub use packed_run::run_packed;
pub use pick::{Pick, Range, StreamForm};
pub use pick_run::{run_only, run_pick};
pub use position::{Position, number_of};
pub use refusal_line::{say_place, say_refusal};
pub use service::{Run, Service};
pub use skip_fault::{SkipFault, skip_fault_after, skip_outcome};
pub use skipped::{Skipped, SkippedSoFar, one_more, say_skipped, skipped_of};
pub use stream_run::run_stream;
pub use table::table_words;
pub use whole_input::{MOST_INPUT, WholeInput, read_all};
