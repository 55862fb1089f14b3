//! The text of a message with marks. The marks before a line are the offset of the slot, row, word or elements that
//! the line shows, a path, or both. A word or an element has the path of the value or row that it belongs to.
//!
//! [`show_marked`] surveys a message and appends the text of the value at a path. Without marks, `capn_show::show_part`
//! appends the same text. Offsets are counted in bytes from the start of the stream, and [`Marks::offset`] is the
//! offset of the message, including any table.
#![tactic(auto)]

mod annotated;
pub mod laws;
mod marked_part;
mod marks;
mod starts;

pub use marked_part::show_marked;
pub use marks::Marks;
