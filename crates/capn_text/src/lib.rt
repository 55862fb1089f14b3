//! The text of a tree, read back: the inverse of [`capn_value::show`].
//!
//! The text has no grammar of its own: a text is valid if and only if `show` writes it for some tree. [`read`] returns
//! this tree, and refuses other bytes at the first wrong line. The lines before the wrong line begin the text of some
//! value, but no text of a value goes on with the wrong line. [`read`] also refuses the text of a value that fits into
//! no message. [`Texts`] reads texts one after the other, each followed by its line `end`. [`plain_text`] turns lists
//! of bytes between quotes into the lines that `show` writes for them.
//!
//! The parser of values is in `contents.rt` and `heads.rt`, over the tokens of `tokens.rt`. Memory grows with the lines
//! that are read, and never by a number that a line announces.
#![tactic(auto)]

mod contents;
mod fault;
mod heads;
pub mod laws;
mod leaves;
mod lines;
mod one_text;
mod plain_form;
mod quoted_line;
mod texts;
mod tokens;
mod unquoter;

pub use fault::TextFault;
pub use lines::lines_in;
pub use one_text::read;
pub use plain_form::{count_to, next_line, plain_text, push_plain};
pub use texts::Texts;
pub use unquoter::Unquoter;
