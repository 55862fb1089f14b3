//! The canonical bytes of values: one encoding for each value, so that equal values have equal bytes.
//!
//! - [`canonicalise`] writes the canonical bytes of the value that bytes denote, in any of the three forms. It returns
//!   the bytes with the number of words that the walk paid. [`canonical_of`] makes the canonical bytes of any message
//!   that is a `Space`.
//! - [`canonical_into`] writes the canonical bytes into a buffer of the caller, and [`canonical_length`] returns the
//!   number of canonical bytes. Neither takes memory or an allocator.
//! - [`is_canonical`] tests whether the bytes of a bare message are canonical, and makes no copy. [`survey_bare`] also
//!   reports the message's price, its visits and its first capability. [`survey_canonical`] is the one pass that
//!   [`is_canonical`] and [`survey_bare`] make first, and reports only on canonical bytes. [`measure_canonical`] is the
//!   same pass, and also finds the depth. [`are_canonical`] and [`survey_bare_of`] work without an allocator.
//!   [`survey_bare_of`] reads any message of one segment through a counter.
//! - [`survey_bare_counted`], [`survey_canonical_counted`] and [`measure_canonical_counted`] return what the calls
//!   without `_counted` return, for a message of one segment whose reads are counted. The budget bounds the number of
//!   reads.
//! - [`canonical_of_counted`], [`canonical_into_counted`] and [`canonical_length_counted`] return what the calls
//!   without `_counted` return, for a message whose reads are counted. The budget bounds the reads of all passes
//!   together, and so does the number of words paid if the result is `Ok`.
//! - [`same_messages`] tests whether the canonical bytes of two messages are equal, without making the bytes.
//!   [`same_messages_counted`] compares two messages whose reads are counted.
//! - [`own_canonical`] returns the bytes of a message if the message is canonical already, and copies nothing.
//!   [`measure`] reports the price, the number of visits and the depth of a message, and whether it is canonical.
//! - [`run_task`] reads bytes in a form as a message, and returns the answer of a [`MessageTask`] for it.
//! - [`canonicalise_of`], [`survey_bytes_of`] and [`are_canonical_of`] are the calls without `_of`, on an
//!   [`AskedInput`]. It is read as a message once, and the message is read only through a counter. So the budget bounds
//!   how often these calls read the message.
//! - [`survey_bytes`] and [`survey`] report the price of a message, the number of visits and the first capability.
//!   Neither makes canonical bytes.
//! - [`layout`] writes the canonical bytes of a tree: one segment, its objects in preorder. A struct has no trailing
//!   zero words and no trailing null pointers, and all rows of a list are shortened to one size. A tree with a
//!   capability is refused with the index of the first capability.
//! - [`Patch`] is a buffer of words, with holes for words that are not known yet, for example the pointer to an object
//!   that has no place yet. No call of this crate writes to a `Patch`.
//!
//! For any bytes, form and limits, unless an allocation is refused, `canonicalise` succeeds if and only if the bytes
//! denote a value without capabilities within the limits. Two results, from any two forms, inputs and limits, are byte
//! for byte equal if and only if the values denoted are the same up to trailing zero words and trailing null pointers
//! of structs. Each result, read bare under the same limits, denotes a value that is the same, in this sense, as the
//! value of the input. A second call on the result returns the same bytes, or `Memory`. No walk pays more than the
//! budget. The clauses `answered`, `equal`, `second` and `within` of `canonicalise` state these sentences, by the
//! definitions of `specs/Theorem.antt`. [`laws::theorem`] states them of every result that the clauses `found` and
//! `refused` allow.
//!
//! For any message, limits and buffer, `canonical_into` succeeds if and only if the message denotes a value without
//! capabilities within the limits and the buffer has room for its canonical bytes. It then writes exactly the canonical
//! bytes. Otherwise it returns the first refusal, and the buffer is as it was. It never allocates. The clauses
//! `answered`, `written`, `refused` and `unchanged` of `canonical_into` state this, by definitions of
//! `specs/Theorem.antt`. [`laws::decision`] states that the clauses allow only one result.
//!
//! For any two messages and limits, `same_messages` succeeds if and only if both denote values without capabilities
//! within the limits. It then returns `true` if and only if the canonical bytes of the two values are equal. Otherwise
//! it returns the refusal of the first message, or of the second if the first has none. It never allocates. The clauses
//! `answered`, `found`, `equal` and `refused` of `same_messages` state this, by the definitions of
//! `specs/SameMessages.antt`.
//!
//! Trees and messages are laid out by one implementation, which reads slots and their values from either.
//!
//! `layout` allocates memory for the bytes that it returns. If an allocation is refused, it returns `Memory`.
//!
//! ```rust
//! let input = [0, 0, 0, 0, 2, 0, 0, 0, 5, 0, 0, 0, 0, 0, 0, 0, 0, 0, 0, 0, 0, 0, 0, 0];
//! if let Ok(answer) = canonicalise(alloc, Form::Bare, &input, Limits::usual()) {
//!     // the first 16 bytes, with one word fewer in the pointer: the trailing zero word is left out
//! }
//! ```
#![tactic(auto)]

mod asked_input;
mod bare_verdict;
mod canonical;
mod canonical_input;
mod canonical_survey;
mod comparison;
mod counted_words;
mod form;
mod input;
pub mod laws;
mod length;
mod message_measure;
mod message_refusal;
mod message_survey;
mod objects;
mod one_pass;
mod one_segment;
mod own_words_test;
mod progress;
mod refusal;
mod same_refusal;
mod survey_input;
mod surveyed_bare;
mod value_survey;
mod written_bytes;

pub use asked_input::{AskedInput, InputTask};
pub use bare_verdict::{
    are_canonical, are_canonical_of, is_canonical, survey_bare, survey_bare_counted, survey_bare_of,
};
pub use canonical::{Canonical, canonical_of, canonical_of_counted};
pub use canonical_input::{canonicalise, canonicalise_of};
pub use canonical_survey::{
    measure_canonical, measure_canonical_counted, survey_canonical, survey_canonical_counted,
};
pub use comparison::{same_messages, same_messages_counted};
pub use form::Form;
pub use input::{MessageTask, run_task};
pub use length::{CanonicalLength, canonical_length, canonical_length_counted};
pub use message_measure::measure;
pub use message_refusal::{IntoRefusal, MessageRefusal};
pub use message_survey::survey;
pub use one_segment::{OwnCanonical, own_canonical};
pub use refusal::Refusal;
pub use same_refusal::{SameRefusal, Side};
pub use survey_input::{survey_bytes, survey_bytes_of};
pub use surveyed_bare::{MeasuredBare, SurveyedBare};
pub use written_bytes::{canonical_into, canonical_into_counted};

// The layout of trees, from `capn_layout`.
pub use capn_layout::{LayoutFault, Patch, layout};

// The types that the signatures of this crate name.
pub use capn_pack::UnpackFault;
pub use capn_stream::FrameFault;
pub use capn_value::{Memory, Tariff, Tree};
pub use capn_walk::{Fault, Limits, Stopped, Surveyed};
pub use capn_words::{Bare, BareFault, Place, Space};
