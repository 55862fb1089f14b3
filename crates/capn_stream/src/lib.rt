//! Calls that read, write and receive the messages of a stream. A message is a segment table followed by segments.
//!
//! [`first`] reads the first message in some bytes, as a [`Framed`] that borrows them. [`first_bare`] reads a message
//! of one segment, as a list of words without a table. [`frame`] writes a message as the bytes of its frame:
//!
//! ```text
//! let (message, taken) = first(alloc, &input, 8_388_608)?;
//! let text = frame(alloc, &message)?;
//! ```
//!
//! Here `text` equals the first `taken` bytes of `input`, except for the padding of the table. Any bytes may be given.
//! If the bytes begin with a frame within the limits, `first` returns the message, or `Memory` if an allocation was
//! refused. Otherwise `first` returns the reason why the bytes are refused. No memory is allocated for segments that a
//! table announces but that are missing. [`laws`] states that bytes begin with at most one frame, and are refused for
//! at most one reason other than `Memory`. [`table`] reads only a table, for a caller that stores the ends of the
//! segments itself. [`Segments`] is a message whose segments lie apart in memory, as a builder keeps them. It is read
//! like a [`Framed`], and takes no memory.
#![tactic(auto)]

mod ends;
mod fault;
mod first_message;
mod frame_bytes;
mod frame_output;
mod framed;
mod framer;
pub mod laws;
mod next_message;
mod segment_bytes;
mod segments;
mod segments_fault;
mod stage;
mod stored;
pub mod table;

pub use fault::{FrameFault, Io, ReadFault};
pub use first_message::{first, first_bare};
pub use frame_bytes::frame;
pub use frame_output::write_message;
pub use framed::Framed;
pub use framer::Framer;
pub use next_message::read_message;
pub use segments::Segments;
pub use segments_fault::SegmentsFault;
pub use stored::Stored;
pub use table::MOST_TABLE_WORDS;

// The types of other crates in the signatures above.
pub use capn_words::{Memory, Place, Space};
