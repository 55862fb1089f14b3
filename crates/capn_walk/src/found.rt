//! The results of reading slots: the values, the number of words paid, and the number of visits.

ghost use Rattle.std.specs.Prelude.{◌≡◌};
ghost use Rattle.capn_value.specs.Tree as trees;
ghost use Rattle.capn_value.specs.TreeOf.{tree_of, trees_of, rows_of};

use capn_value::{Body, Items, Value};
use std::alloc::Allocator;

/// The value of a slot, the number of words paid for the value, and the number of visits.
#[derive(Drop)]
pub struct Found<A: Allocator> {
    pub value: Value<A>,
    pub paid: u32,
    pub visits: u32,
}

impl<A: Allocator> Found<A> {
    /// Returns the result of one visit of a slot without content: the value `value`, no words paid, and one visit.
    pub fn without_content(value: Value<A>) -> Found<A>
        ensures value { result.value ≡ value }
        ensures paid { result.paid ≡ 0 }
        ensures visits { result.visits ≡ 1 }
    {
        Found {
            value,
            paid: 0,
            visits: 1,
        }
    }

    /// Returns the result for an object without slots, whose value is `value`. Neither the visit of the object nor the
    /// object's own price is counted.
    #[inline(always)]
    pub fn without_slots(value: Value<A>) -> Found<A>
        ensures value { result.value ≡ value }
        ensures paid { result.paid ≡ 0 }
        ensures visits { result.visits ≡ 0 }
    {
        Found {
            value,
            paid: 0,
            visits: 0,
        }
    }
}

/// The values of consecutive slots, the number of words paid for the values, and the number of visits.
#[derive(Drop)]
pub struct FoundSlots<A: Allocator> {
    pub items: Items<Value<A>, A>,
    pub paid: u32,
    pub visits: u32,
}

#[tactic(auto, using(capn_value::specs::Views::views))]
impl<A: Allocator> FoundSlots<A> {
    /// Makes a struct of the data `words` and the values of `self`.
    pub fn into_struct(self, words: Items<u64, A>) -> Found<A>
        ensures value { tree_of result.value ≡ trees.node words (trees_of self.items) }
        ensures paid { result.paid ≡ self.paid }
        ensures visits { result.visits ≡ self.visits }
    {
        let slots = self.items;
        Found {
            value: Value::Node(Body { words, slots }),
            paid: self.paid,
            visits: self.visits,
        }
    }

    /// Makes a list of pointers with the values of `self`.
    pub fn into_list(self) -> Found<A>
        ensures value { tree_of result.value ≡ trees.links (trees_of self.items) }
        ensures paid { result.paid ≡ self.paid }
        ensures visits { result.visits ≡ self.visits }
    {
        Found {
            value: Value::Links(self.items),
            paid: self.paid,
            visits: self.visits,
        }
    }
}

/// The rows of a composite list, the number of words paid for the slots of all rows, and the number of visits.
#[derive(Drop)]
pub struct FoundRows<A: Allocator> {
    pub rows: Items<Body<A>, A>,
    pub paid: u32,
    pub visits: u32,
}

#[tactic(auto, using(capn_value::specs::Views::views))]
impl<A: Allocator> FoundRows<A> {
    /// Makes a composite list of the rows of `self`.
    pub fn into_list(self) -> Found<A>
        ensures value { tree_of result.value ≡ trees.rows (rows_of self.rows) }
        ensures paid { result.paid ≡ self.paid }
        ensures visits { result.visits ≡ self.visits }
    {
        Found {
            value: Value::Rows(self.rows),
            paid: self.paid,
            visits: self.visits,
        }
    }
}
