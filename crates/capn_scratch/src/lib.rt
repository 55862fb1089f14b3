//! Canonical bytes of a message in any form, with no allocator.
//!
//! [`canonical_into_form`] writes the canonical bytes of the value that bytes denote, in any of the three forms, into a
//! buffer of the caller. The caller also lends words, the scratch. The scratch holds the words that a packed text
//! unpacks to, and the ends of the segments if there are more than 64. If the scratch is too short for the words or for
//! the ends, the refusal has the number of words needed so far. [`FormRefusal`] has no variant for memory.
//!
//! ```text
//! let mut scratch = [[0; 8]; 512];
//! let mut out = [0; 4096];
//! match canonical_into_form(Form::Packed, &input, Limits::usual(), &mut scratch, &mut out) {
//!     Ok(written) => // the canonical bytes are the first `written.length` of `out`
//!     Err(FormRefusal::NoScratch { needed }) => // the scratch has fewer than `needed` words
//!     Err(refusal) => // the reason for no canonical bytes, and `out` is as it was
//! }
//! ```
//!
//! For any bytes, form, limits, scratch and buffer, the call succeeds if and only if three conditions hold. The bytes
//! denote a value without capabilities within the limits, the scratch has the words that the bytes need, and the buffer
//! has room for the canonical bytes. The call then writes exactly the canonical bytes. Otherwise it returns the first
//! refusal, and the buffer is as it was. The clauses state this, by the definitions of `specs/Theorem.antt`,
//! `specs/FormRefusal.antt` and `specs/Needs.antt`. [`laws`] states that the clauses allow only one result. For each
//! form it also states a number of words that is enough for every input.
//!
//! [`canonical_into_form_of`] is the same call on [`AskedBytes`], bytes on which one task can be run. Its clause `work`
//! bounds the whole way from the bytes to the canonical bytes: the unpacking, the segment table, the walk and the
//! layout. The task gets the bytes as [`CountedBytes`] and the scratch as [`CountedScratch`], whose calls count in
//! [`Steps`]. A slice allows any number of steps.
//!
//! No call allocates memory or takes an allocator.
#![tactic(auto)]

mod asked_bytes;
mod canonical_form;
mod counted_bytes;
mod counted_scratch;
mod ends;
mod framed;
mod group;
pub mod laws;
mod prepaid;
mod refusal;
mod scratch_segments;
mod steps;
mod table;
mod unpacked;

pub use asked_bytes::{AskedBytes, BytesTask};
pub use canonical_form::{canonical_into_form, canonical_into_form_of};
pub use counted_bytes::CountedBytes;
pub use counted_scratch::CountedScratch;
pub use refusal::FormRefusal;
pub use steps::Steps;

// The types that the signatures of this crate name.
pub use capn_canon::{BareFault, CanonicalLength, Form, FrameFault, Limits, Stopped, UnpackFault};
