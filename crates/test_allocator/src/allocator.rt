//! `Refusing`: an allocator that refuses allocations, and keeps an account of those requested.

use crate::account::Account;
use std::alloc::{AllocError, Allocator};
use std::cell::Cell;

/// An allocator that passes each call to `inner`, except for the allocations that it refuses.
pub struct Refusing<B: Allocator> {
    inner: B,
    account: Cell<Account>,
}

impl<B: Allocator> Refusing<B> {
    /// Returns an allocator over `inner` that refuses only the allocation with the number `number`, counted from 1.
    /// With 0 it refuses none.
    pub fn nth(inner: B, number: u64) -> Refusing<B> {
        Refusing {
            inner,
            account: Cell::new(Account::nth(number)),
        }
    }

    /// Refuses each allocation of more than `most` bytes, from now on.
    pub fn refuse_above(&self, most: usize) {
        let account = self.account.get();
        self.account.set(Account { most, ..account });
    }

    /// Refuses each allocation from now on.
    pub fn refuse_each(&self) {
        self.refuse_above(0);
    }

    /// Tests whether the allocation to refuse by its number has not been requested yet. Returns `false` if the number
    /// was 0.
    pub fn has_spared(&self) -> bool {
        self.account.get().left != 0
    }

    /// Returns the greatest size in bytes of the allocations requested, refused ones included.
    pub fn greatest(&self) -> usize {
        self.account.get().greatest
    }

    /// Returns the number of allocations requested, refused ones included.
    pub fn count(&self) -> u64 {
        self.account.get().count
    }
}

impl<B: Allocator> Drop for Refusing<B> {
    fn drop(self) {
        let Self {
            inner: _,
            account: _,
        } = self;
    }
}

// Counts an allocation of `size` bytes, and tests whether it is to be refused.
fn is_refused(account: &Cell<Account>, size: usize) -> bool {
    let before = account.get();
    account.set(before.counted(size));
    before.refuses(size)
}

unsafe impl<B: Allocator> Allocator for Refusing<B> {
    ghost dealloc_token = { λ heap ty ptr. B.dealloc_token heap.inner ty ptr };

    fn allocate(&self, size: usize, align: usize) -> Result<*mut u8, AllocError> {
        if is_refused(&self.account, size) {
            return Err(AllocError);
        }
        self.inner.allocate(size, align)
    }

    unsafe fn deallocate(&self, ptr: *mut u8, size: usize, align: usize) {
        self.inner.deallocate(ptr, size, align);
    }
}
