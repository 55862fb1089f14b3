//! Values of messages as trees. A value is what a pointer denotes: null, a struct, a list or a capability. The place of
//! the value in a message is no part of the value.
//!
//! A [`Value`] may be built from any parts. A [`Tree`] is a value that fits into a message. [`Tree::new`] makes a tree
//! of a value, or returns the value with the first [`Misfit`]. In contracts, a value or a tree is a mathematical tree,
//! without capacities, addresses or allocators.
//!
//! - [`same`] tests whether two values are equal up to trailing zero words and trailing null slots of structs.
//! - [`trim`] cuts off trailing zero words and trailing null slots of structs. Two trees are the same if and only if
//!   they are equal once trimmed, and trimming raises neither [`cost`] nor [`height`].
//! - [`first_cap`] finds the first capability, [`copy`] copies a tree, and [`show`] writes its text.
//! - [`laws`] states what holds of the definitions apart from any call.
//!
//! Of the calls on values and trees, only `trim`, `copy` and `show` take memory.
//!
//! ```rust
//! let root = Value::Node(Body {
//!     words: Items::from_vec(vec![in alloc; 5, 0]?),
//!     slots: Items::new(alloc),
//! });
//! if let Ok(tree) = Tree::new(root) {
//!     let text = show(alloc, &trim(alloc, &tree)?)?; // "struct 1 0", then "  word 0000000000000005"
//! }
//! ```
#![tactic(auto)]

mod cost_and_height;
mod flaws;
mod items;
mod kept_lengths;
pub mod laws;
mod misfit;
mod part_flaws;
mod sameness;
mod tariff;
mod text;
mod text_lines;
mod tree;
mod value;
mod value_copy;

pub use cost_and_height::{MOST_COST, MOST_HEIGHT};
pub use items::Items;
pub use kept_lengths::{kept_slots, kept_slots_of_rows, kept_words, kept_words_of_rows};
pub use misfit::Misfit;
pub use sameness::same;
pub use tariff::Tariff;
pub use tree::{Tree, copy, cost, height, show, trim};
pub use value::{Body, Value, first_cap};

// The types of other crates in the signatures above.
pub use capn_words::Memory;
