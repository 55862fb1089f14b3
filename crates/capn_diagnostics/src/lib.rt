//! The texts that explain a message: its place and size, the refused slot, and the words that lead to its content.
//!
//! - [`PointerText`] displays a word as a pointer, and [`TagText`] as the tag of a list of structs.
//! - [`WordText`] displays the bytes of a word, in their order in the message.
//! - [`SlotText`] displays a slot: the offset in bytes and the place of its word, the bytes of the word, and
//!   the pointer that they encode.
//! - [`PathText`] displays the path from the root to a slot.
//! - [`place_byte`] returns the byte of a stream at which a word of a message lies.
//! - [`examine`] examines the slot at which the walk over a message was refused. The call finds the words that
//!   lead to the slot's content, the place of the content, and the limit that the fault is about.
//! - [`explain_stop`] returns all lines that explain why the walk over a message has stopped.
//! - [`RefusedLines`] and [`FrameLines`] display all lines that explain a refused message. The lines are made of
//!   [`MessageHead`], [`SegmentsText`], [`SlotLines`], [`HolderText`] and [`FrameKey`].
//! - [`CountText`] displays the line of a run that finds no message to explain.
//! - [`CanonicalText`] displays whether an accepted message is canonical, or why it is not.
#![tactic(auto)]

mod byte_of_place;
mod canonical_text;
mod count_text;
mod examination;
mod examined;
mod examined_text;
mod frame_text;
mod holder_text;
mod message_text;
mod pads;
mod path_text;
mod pointer_text;
mod price;
mod refusal;
mod segments_text;
mod slot_text;
mod tag_text;
mod tags;
mod telling;
mod word_text;

pub use byte_of_place::place_byte;
pub use canonical_text::CanonicalText;
pub use count_text::CountText;
pub use examination::examine;
pub use examined::{Examined, Limit, Pad, RowWords, Stretch};
pub use examined_text::SlotLines;
pub use frame_text::FrameKey;
pub use holder_text::HolderText;
pub use message_text::{FrameLines, MessageHead, RefusedLines};
pub use path_text::PathText;
pub use pointer_text::PointerText;
pub use refusal::{Explanation, explain_stop};
pub use segments_text::SegmentsText;
pub use slot_text::SlotText;
pub use tag_text::TagText;
pub use word_text::WordText;
