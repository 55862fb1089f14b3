//! The account of a test allocator: which allocations it refuses, and the count and the greatest size of those
//! requested.

ghost use Rattle.std.specs.Prelude.{◌≡◌, ◌⊎◌, ◌+◌, ◌-◌, ◌^◌, ◌<◌, ◌↔◌, true, max, min};

/// The allocations that are refused, and the figures of those requested so far.
#[derive(Clone, Copy)]
pub(crate) struct Account {
    /// The number of allocations still to come, up to and including the refused one. At 0, none is refused by number.
    pub left: u64,
    /// The greatest size in bytes of an allocation that is not refused for its size.
    pub most: usize,
    /// The greatest size in bytes that was requested.
    pub greatest: usize,
    /// The number of allocations requested.
    pub count: u64,
}

impl Account {
    /// Returns an account that refuses only the allocation with the number `number`, counted from 1. With 0 it refuses
    /// none.
    pub(crate) fn nth(number: u64) -> Account
        ensures left { result.left ≡ number }
        ensures most { result.most ≡ 2 ^ 64 - 1 }
        ensures greatest { result.greatest ≡ 0 }
        ensures count { result.count ≡ 0 }
    {
        Account {
            left: number,
            most: usize::MAX,
            greatest: 0,
            count: 0,
        }
    }

    /// Tests whether an allocation of `size` bytes is refused.
    pub(crate) fn refuses(self, size: usize) -> bool
        ensures { (result ≡ true) ↔ ((self.left ≡ 1) ⊎ (self.most < size)) }
    {
        self.left == 1 || self.most < size
    }

    /// Returns the account after a request for an allocation of `size` bytes.
    pub(crate) fn counted(self, size: usize) -> Account
        ensures left { result.left ≡ self.left - 1 }
        ensures most { result.most ≡ self.most }
        ensures greatest { result.greatest ≡ max self.greatest size }
        ensures count { result.count ≡ min (self.count + 1) (2 ^ 64 - 1) }
    {
        Account {
            left: self.left.saturating_sub(1),
            most: self.most,
            greatest: self.greatest.max(size),
            count: self.count.saturating_add(1),
        }
    }
}
