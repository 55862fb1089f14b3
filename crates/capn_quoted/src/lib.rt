//! Texts between quotes: which lists of bytes are texts, how lines write a text, and how it is read back.
//!
//! A list of bytes is a text if it is ASCII ([`is_ascii_text`]) or clear UTF-8 with a last zero ([`is_clear_text`]).
//! Between quotes, a text stands as it is but for its escapes. Code points that nobody sees, or that turn what others
//! see, are written as their numbers ([`is_hidden`]). [`unquoted`] reads what is written of a text, and nothing else.
//! It refuses other bytes at the first byte with which no text goes on.
//!
//! ```text
//! let bytes = unquoted(alloc, b"h\xc3\xb6\\0\"")?;
//! ```
#![tactic(auto)]

mod escapes;
mod hidden;
pub mod laws;
mod reading;
mod stage;
mod texts;

pub use escapes::{after_first, code_at, split_bare};
pub use hidden::{hexadecimal, is_hidden};
pub use reading::{Unread, may_go_on, unquoted};
pub use stage::Stage;
pub use texts::{is_ascii_text, is_clear_text, is_text};
