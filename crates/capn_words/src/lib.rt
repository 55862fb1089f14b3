//! Words, pointers and segments, by which every other crate reads a message.
//!
//! - `split` takes a pointer word apart and `join` puts one together. Each is the inverse of the other.
//! - `Space` is a message whose words and bytes can be read at a `Place`. A function over any `Space` is written and
//!   proved once. `Bare` is the `Space` of one borrowed segment.
//! - `Watched` is a reader or a writer that remembers whether a call on it has failed.
//! - `laws` states that bytes are read as one segment in at most one way, and are refused for at most one reason.
//! - `Memory` is the error of all crates for an allocation that was refused.
//!
//! No call itself takes memory. A message has 1 to 4,096 segments and at most 2^28 + 1 words in all.
//!
//! ```text
//! let bare = Bare::new(input)?;
//! let root = Place { segment: 0, word: 0 };
//! if bare.words(0) != Some(0) {
//!     match split(bare.word(root)) { .. }
//! }
//! ```
#![tactic(auto)]

mod bare;
pub mod laws;
mod limits;
mod memory;
mod message_size;
mod pointer;
mod space;
mod watched;

pub use bare::{Bare, BareFault};
pub use limits::{MOST_MESSAGE_WORDS, MOST_SEGMENTS, MOST_WORDS};
pub use memory::Memory;
pub use message_size::total_words;
pub use pointer::{Pointer, Width, join, split};
pub use space::{Place, Space};
pub use watched::Watched;
