//! The text of a message, written without making its value.
//!
//! [`show_message`] surveys a message within limits, and writes nothing if the message is refused. The text of an
//! accepted message is what `capn_value::show` writes for the value that `capn_walk::walk` returns. The text is written
//! slot by slot, in the order of the walk. Each line is added to a buffer of the caller, so that the small texts of
//! many messages are written at once. When the buffer has 65,536 bytes or more, it is written and emptied, so large
//! messages need no larger buffer. [`show_part`] writes the value at a path of numbers from the root, in one of four
//! styles. JSON is written by `json.rt` and the files whose names begin with `json`.
//!
//! ```text
//! let mut text = Vec::new(alloc);
//! let mut writer = Watched::new(writer);
//! for message in messages {
//!     show_message(alloc, &mut text, &mut writer, &message, Limits::usual())?;
//! }
//! writer.write_all(&text)?;
//! ```
#![tactic(auto)]

mod bits;
mod byte_digits;
mod bytes;
mod descent;
mod emitter;
mod escapes;
mod fault;
mod json;
mod json_items;
mod json_texts;
pub mod laws;
mod line_pieces;
mod lines;
mod lists;
mod message;
mod numbers;
mod output;
mod part;
mod piece;
mod quoted;
mod rows;
mod slots;
mod style;
mod styled;

pub use fault::ShowFault;
pub use message::show_message;
pub use part::show_part;
pub use style::Style;

// Functions and types for other crates that write texts: lines, lists, emitters, and the steps of a path.
pub use bytes::show_quoted;
pub use descent::{Part, named, step_down};
pub use emitter::Emitter;
pub use fault::{Broken, fault_of};
pub use line_pieces::put_line_piece;
pub use lines::{plain_line, put_number};
pub use output::put;
pub use piece::Piece;
pub use quoted::put_between_quotes;
pub use slots::show_found;
