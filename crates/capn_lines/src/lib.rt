//! The lines of a message. A line is a run of words that are alike: of one kind, of one object, and read as often. Each
//! word of a message is in exactly one line.
//!
//! - [`line_at`] makes the line that begins at a place, from the words of a message and their cover.
//! - [`list_part`] finds which elements of its list the words of a line of kind `List` have, and what lies behind the
//!   list's last element.
//! - [`count_words`] counts the words of a message by kind, and those that are shared, overlap, hide something or are
//!   cut.
//!
//! No call takes memory. The lines of a message are made one by one:
//!
//! ```text
//! let words = cover(alloc, &message, limits)?;
//! let before = words_before(alloc, &message)?;
//! let mut at = Place::ROOT;
//! while at.word < count {
//!     let line = line_at(&message, &before, &words, at);
//!     at.word += line.words;
//! }
//! ```
#![tactic(auto)]

mod counts;
mod kind;
pub mod laws;
mod line;
mod list_parts;
mod message_lines;
mod seen;
mod word_counts;

pub use counts::Counts;
pub use kind::Kind;
pub use line::Line;
pub use list_parts::{ListPart, list_part};
pub use message_lines::line_at;
pub use word_counts::count_words;
