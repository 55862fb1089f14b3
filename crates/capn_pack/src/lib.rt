//! The packing of Cap'n Proto, which leaves out zero bytes of words.
//!
//! [`pack`] writes whole words as the one text that this packer chooses. [`unpack`] reads any packed text, up to a
//! maximum of words. From a text that [`pack`] wrote, [`unpack`] returns the words that were packed, if they are within
//! the maximum. [`Unpacker`] reads a text piece by piece, and [`tag`] returns the tag of one word. (Page: packing. What
//! the page leaves open is our own: where a run ends, what an unpacker accepts, the order of the errors.)
//!
//! ```text
//! let text = pack(alloc, &[8, 0, 0, 0, 3, 0, 2, 0])?;   // 51 08 03 02 in hexadecimal
//! let words = unpack(alloc, &text, 1)?;                 // the eight bytes again
//! ```
//!
//! Every error is a [`PackFault`], an [`UnpackFault`] or an `AllocError`, and the contract of each call says when it is
//! returned. [`laws`] states that a text has at most one reading, and at most one reason other than `Memory` to be
//! refused. It also states that a text is split into complete groups and a rest in exactly one way.
#![tactic(auto)]

mod block;
mod fault;
mod gather_table;
mod lanes;
pub mod laws;
mod pack_block;
mod pack_group;
mod packed_text;
mod room;
mod runs;
mod signs;
mod spread_table;
mod text_piece;
mod unpack_block;
mod unpack_group;
mod unpacked_words;
mod unpacker;
mod whole_groups;

pub use fault::{PackFault, UnpackFault};
pub use lanes::tag;
pub use packed_text::pack;
pub use unpacked_words::unpack;
pub use unpacker::Unpacker;
pub use whole_groups::{Next, Progress, unpack_some};
