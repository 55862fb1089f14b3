//! Messages made from texts: the inverse of what `show` writes for a stream of messages.
//!
//! [`make`] reads texts of values by `capn_text`, each followed by its line `end`, and writes the canonical bytes of
//! each value. Depending on the form, the bytes are written as a frame of one segment, as the packed text of that
//! frame, or as they are. A text that is refused ends the run with a [`MakeFault`], which names the line.
#![tactic(auto)]

mod end_line;
mod fault;
mod input;
pub mod laws;
mod make_run;
mod next_text;
mod progress;
mod sink;
mod texts_input;
mod texts_run;
mod whole_texts;
mod written_value;

pub use fault::MakeFault;
pub use make_run::make;
pub use texts_run::make_texts;

// The types in the signatures of the calls above.
pub use capn_canon::Form;
pub use capn_value::Misfit;
pub use capn_words::Watched;
