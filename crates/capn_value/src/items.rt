//! The type `Items`, a list of the elements of a value.

ghost use Rattle.std.specs.Prelude.{◌≡◌, ◌^◌, ◌<◌, [], ◌∷◌, ◌++◌, ◌↔◌, IsTrue, length, IfOk, OnOk, OnErr};
ghost use Rattle.std.specs.Iterator.Runs.{EveryRun, ItemsMapTo};
ghost use Rattle.std.specs.Slice.Iter.{iter_rest, iter_steps};

use std::alloc::{AllocError, Allocator, Global};
use std::marker::Model;
use std::ops::DerefSlice;
use std::slice;

/// A list of elements. Contracts see only the elements, without capacity and address.
///
/// The list wraps a `Vec`. Wrapping and unwrapping take no memory.
#[derive(Debug, Drop)]
pub struct Items<T, A: Allocator = Global> {
    items: Vec<T, A>,
}

impl<T, A: Allocator> Model for Items<T, A> {
    ghost use Rattle.std.specs.Prelude.{List};
    ghost use Rattle.std.specs.Coded.{coded_list};

    ghost Value = { List T };

    ghost coded = { coded_list T.code };

    ghost view = { λ it. it.items.items };
}

impl<T, A: Allocator> Items<T, A> {
    /// Returns an empty list over `alloc`. Takes no memory.
    pub fn new(alloc: A) -> Items<T, A>
        ensures { result ≡ [] }
    {
        Items {
            items: Vec::new(alloc),
        }
    }

    /// Returns an empty list over `alloc` with capacity for `capacity` elements, which can then be pushed without an
    /// allocation. Returns `AllocError` if the allocation was refused. Takes no memory if `capacity` is 0.
    pub fn with_capacity(alloc: A, capacity: usize) -> Result<Items<T, A>, AllocError>
        ensures ok { IfOk result (λ it. it ≡ []) }
        ensures memory { OnErr result (0 < capacity) }
    {
        let items = Vec::with_capacity(alloc, capacity)?;
        Ok(Items { items })
    }

    /// Wraps the `Vec` `items`. Takes no memory.
    pub fn from_vec(items: Vec<T, A>) -> Items<T, A>
        ensures { result ≡ items.items }
    {
        Items { items }
    }

    /// Returns the `Vec` that was wrapped. Takes no memory.
    pub fn into_vec(self) -> Vec<T, A>
        ensures { result.items ≡ self }
    {
        self.items
    }

    /// Returns the elements in order.
    pub fn as_slice(&self) -> &[T]
        ensures { result.now ≡ self.now }
    {
        self.items.as_slice()
    }

    /// Returns the number of elements.
    pub fn len(&self) -> usize
        ensures { result ≡ length self.now }
    {
        self.items.len()
    }

    /// Tests whether there are no elements.
    pub fn is_empty(&self) -> bool
        ensures { IsTrue result ↔ (self.now ≡ []) }
    {
        self.items.is_empty()
    }
}

impl<T: Copy, A: Allocator> Items<T, A> {
    /// Copies the slice `items` into new memory of `alloc`, which has exactly the size of the slice. Returns
    /// `AllocError` if the allocation was refused.
    pub fn from_slice(alloc: A, items: &[T]) -> Result<Items<T, A>, AllocError>
        ensures { IfOk result (λ it. it ≡ items.now) }
    {
        let items = Vec::from_slice(alloc, items)?;
        Ok(Items { items })
    }
}

impl<T: Drop, A: Allocator> Items<T, A> {
    /// Appends `item`. If an allocation is refused, returns `AllocError` and does not change the list.
    pub fn push(&mut self, item: T) -> Result<(), AllocError>
        ensures ok { OnOk result (self.new ≡ self.old ++ item ∷ []) }
        ensures err { OnErr result (self.new ≡ self.old) }
    {
        self.items.push(item)?;
        Ok(())
    }
}

impl<T, A: Allocator> DerefSlice for Items<T, A> {
    type Elem = T;

    ghost deref_gives = { λ v xs. xs ≡ v };

    fn deref(&self) -> &[T] {
        self.items.as_slice()
    }
}

impl<'a, T, A: Allocator> IntoIterator for &'a Items<T, A> {
    type Item = &'a T;

    type IntoIter = slice::Iter<'a, T>;

    ghost into_iter_gives = { λ v it. (iter_rest it ≡ v.now) × (length (iter_rest it) < 2 ^ 64)
        × EveryRun (iter_steps {A = T}) (λ p. ItemsMapTo p (λ x. x.now) (iter_rest p.from)) };

    fn into_iter(self) -> slice::Iter<'a, T> {
        self.items.as_slice().iter()
    }
}
