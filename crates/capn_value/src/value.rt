//! The type `Value`, which is what a pointer denotes, and the search for the first capability in a value.

ghost use Rattle.std.specs.Prelude.{◌≡◌};
ghost use Rattle.capn_value.specs.TreeOf.{tree_of, trees_of, rows_of};
ghost use Rattle.capn_value.specs.FirstCap as caps;

use crate::items::Items;
use std::alloc::{Allocator, Global};

/// The value that a pointer denotes. (Page: structs, lists, capabilities.)
///
/// Lists of different kinds differ: an empty list of bytes does not equal an empty list of voids.
#[cycle(value)]
#[derive(Debug, Drop)]
pub enum Value<A: Allocator = Global> {
    /// The null pointer.
    Nil,
    /// A struct.
    Node(Body<A>),
    /// A list of elements without size, given by their number.
    Voids(u32),
    /// A list of single bits.
    Bits(Items<bool, A>),
    /// A list of elements of one byte.
    Bytes(Items<u8, A>),
    /// A list of elements of two bytes.
    Pairs(Items<u16, A>),
    /// A list of elements of four bytes.
    Quads(Items<u32, A>),
    /// A list of elements of eight bytes that are no pointers.
    Octs(Items<u64, A>),
    /// A list of pointers, each given as the value that it denotes.
    Links(Items<Value<A>, A>),
    /// A composite list, whose elements are structs of one size.
    Rows(Items<Body<A>, A>),
    /// A capability, given by its index.
    Cap(u32),
}

/// The content of a struct, or of one element of a composite list. (Page: structs.)
#[cycle(value)]
#[derive(Debug, Drop)]
pub struct Body<A: Allocator = Global> {
    /// The words of the data section.
    pub words: Items<u64, A>,
    /// The pointers of the pointer section, each given as the value that it denotes.
    pub slots: Items<Value<A>, A>,
}

/// Returns the index of the first capability of `v` in preorder, or `None` if there is none.
///
/// In preorder, a value comes before the values in its slots, rows or elements. These values follow in order, and all
/// values below one of them come before the next one. (Our own.) Takes no memory.
#[cycle(first_cap)]
pub fn first_cap<A: Allocator>(v: &Value<A>) -> Option<u32>
    ensures { result ≡ caps.first_cap (tree_of v.now) }
{
    match v {
        Value::Cap(k) => Some(*k),
        Value::Node(body) => first_in(body.slots.as_slice()),
        Value::Links(items) => first_in(items.as_slice()),
        Value::Rows(bodies) => first_in_rows(bodies.as_slice()),
        _ => None,
    }
}

#[cycle(first_cap)]
fn first_in<A: Allocator>(items: &[Value<A>]) -> Option<u32>
    ensures { result ≡ caps.first_in (trees_of items.now) }
{
    for v in items {
        if let Some(k) = first_cap(v) {
            return Some(k);
        }
    }
    None
}

#[cycle(first_cap)]
fn first_in_rows<A: Allocator>(bodies: &[Body<A>]) -> Option<u32>
    ensures { result ≡ caps.first_in_rows (rows_of bodies.now) }
{
    for body in bodies {
        if let Some(k) = first_in(body.slots.as_slice()) {
            return Some(k);
        }
    }
    None
}
