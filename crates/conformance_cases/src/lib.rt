//! The cases of `conformance_calls` and `conformance_runs`: how they are read, and how each is answered with enough
//! memory and with refused allocations. A case has two lines: its name, and a call. A space separates the words of a
//! call. Bytes are hexadecimal, and `-` stands for none. A program answers a call by one line.
#![tactic(auto)]

mod forms;
mod growths;
mod words;

pub use forms::form_at;
pub use growths::{Answers, Growths, Heap, MEMORY, answer_each, cut_short, growths_and_call};
pub use words::{bytes_at, digits_of, number_at, push_told, word_at};
