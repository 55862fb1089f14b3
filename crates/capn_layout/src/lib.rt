//! The canonical layout of values and messages: one segment with the objects in preorder. The words of a struct are cut
//! after the last nonzero word, and its pointers after the last non-null one. All rows of a list are cut to one size.
//!
//! - [`layout`] writes the canonical bytes of a tree. A tree with a capability has no canonical bytes, and is refused
//!   with the index of the first capability.
//! - [`surveyed_layout`] writes the canonical bytes of a message that was surveyed, and reads the message's value in
//!   place.
//! - [`surveyed_length`] returns the number of words in the canonical bytes.
//! - [`surveyed_layout_counted`] and [`surveyed_length_counted`] write and count the canonical bytes of a message whose
//!   reads are counted. The number of words that the walk pays bounds the number of reads.
//!   [`surveyed_layout_into_counted`] writes the bytes into a buffer.
//! - [`target_at`] returns the target of a pointer of a surveyed message, and tests nothing again.
//! - [`Patch`] is a buffer of words, and of holes for words that are not known yet, such as the pointer to an object
//!   that has no place yet. No layout uses a `Patch`.
//! - [`list_pointer`], [`tag_word`] and [`bits_of`] give the words of a layout and the sizes of elements, for callers
//!   that compare bytes with a layout.
//!
//! A tree and a message are laid out by one writer, which reads slots and the values of slots. Unless the caller gives
//! a buffer, the memory for all bytes is allocated at once, and the result is `Memory` if that allocation is refused. A
//! pass before the allocation counts the bytes, unless a message's price bounds them well enough.
#![tactic(auto)]

mod bits;
mod draft;
mod elements;
mod kept;
mod known_target;
mod marks;
mod message_layout;
mod message_slots;
mod number_list_words;
mod object_layout;
mod object_size;
mod opening;
mod patch;
mod pointer_words;
mod source;
mod struct_list_words;
mod tree_layout;
mod tree_slots;
mod zero_bytes;

pub use known_target::target_at;
pub use message_layout::{
    surveyed_layout, surveyed_layout_counted, surveyed_layout_into_counted, surveyed_length,
    surveyed_length_counted,
};
pub use number_list_words::bits_of;
pub use patch::Patch;
pub use pointer_words::{list_pointer, tag_word};
pub use tree_layout::{LayoutFault, layout};

// The types that the signatures of this crate name.
pub use capn_value::{Memory, Tree};
pub use capn_words::{Place, Space, Width};
