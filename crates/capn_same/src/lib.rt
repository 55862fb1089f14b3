//! The comparison of the values of two messages, slot by slot. Trailing zero words and trailing null pointers of
//! structs make no difference.
//!
//! - [`surveyed_same_counted`] compares the values of two messages that were surveyed. Both messages are read in place,
//!   up to the first difference. No memory is allocated.
//! - [`PairTask`] is a task on two messages that reads each message at most a stated number of times. [`AskedFirst`]
//!   and [`AskedSecond`] are the messages of a task. A reference to a `Space` can be either.
//!
//! Neither message is changed. If structs of different sizes are the same, each word that only one of them has is zero,
//! and each pointer that only one of them has is null. The same rule holds for each row of a list of structs. So two
//! rows can be the same although one of them is longer.
#![tactic(auto)]

mod asked_pair;
mod blocks;
mod numbers;
mod objects;
mod run;
mod same_values;
mod words;

pub use asked_pair::{AskedFirst, AskedSecond, PairTask};
pub use same_values::surveyed_same_counted;
