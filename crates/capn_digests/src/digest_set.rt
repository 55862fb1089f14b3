//! The set of digests: a list, a table of slots and a tree, and the calls on the set.

ghost use Rattle.std.specs.Prelude.{◌≡◌, true, false, OnOk, OnErr, IfOk};
ghost use Rattle.std.specs.FinSet as set;
ghost use Rattle.capn_digests.specs.Digests.{MayGrow, HasGrown, no_digests};

use crate::doubling::make_room;
use crate::look::is_among;
use crate::slot::{Head, SLOTS, Slot, home_of, may_be_in, put, tag_of};
use std::alloc::{AllocError, Allocator};
use std::collections::BTreeSet;
use std::marker::Model;

/// A set of digests that grows.
///
/// The list grows by an eighth and 16 digests. It takes 32 to 36 bytes for each digest, and at most 512 bytes more. The
/// table takes 17 to 34 bytes for each digest of a list of at least four. A bucket of the table has sixteen slots. The
/// table doubles in place when the list has eight digests for each bucket. A digest in the tree takes up to 72 bytes.
#[derive(Drop)]
pub struct DigestSet<A: Allocator> {
    list: Vec<[u8; 32], A>,
    heads: Vec<Head, A>,
    table: Vec<[Slot; SLOTS], A>,
    rest: BTreeSet<[u8; 32], A>,
}

impl<A: Allocator> Model for DigestSet<A> {
    ghost use Rattle.std.specs.Prelude.{length, vec_capacity};
    ghost use Rattle.std.specs.FinSet as set;
    ghost use Rattle.std.specs.Ordering.{nat_cmp};
    ghost use Rattle.std.specs.Cmp.Lexicographic.{slice_cmp};
    ghost use Rattle.std.specs.Coded.{codes, coded_ℕ, coded_list};
    ghost use Rattle.capn_digests.specs.Buckets.{IsIndexed, digests_of};
    ghost use Rattle.capn_digests.specs.Digests.{Digests, counts};

    ghost Value = { Digests };

    ghost coded = { Prim.hlevel (codes, set.code {R = slice_cmp nat_cmp} (coded_list coded_ℕ)) };

    ghost view = { λ s. record {
      seen = digests_of s.list.items s.rest.keys;
      listed = length s.list.items;
      room = vec_capacity s.list;
      taken = counts s.heads.items;
    } };

    ghost invariant = { λ s. IsIndexed s.list.items s.heads.items s.table.items s.rest.keys };
}

impl<A: Allocator + Copy> DigestSet<A> {
    /// Returns the empty set, which takes no memory.
    pub fn new(alloc: A) -> DigestSet<A>
        ensures { result ≡ no_digests }
    {
        DigestSet {
            list: Vec::new(alloc),
            heads: Vec::new(alloc),
            table: Vec::new(alloc),
            rest: BTreeSet::new(alloc),
        }
    }

    /// Inserts `digest`, and returns whether the set already had `digest`.
    ///
    /// `AllocError` is returned only if the set lacks `digest` and an allocation was refused. The list allocates if it
    /// is full. The table allocates if the list has at least eight digests for each bucket. The tree may allocate if
    /// the bucket of `digest` is full, or if the list has 2^32 - 1 digests. After an error the set has the digests that
    /// it had before.
    pub fn insert(&mut self, digest: [u8; 32]) -> Result<bool, AllocError>
        ensures answer { IfOk result (λ was. was ≡ set.contains self.old.seen digest) }
        ensures inserted { OnOk result (self.new.seen ≡ set.insert self.old.seen digest) }
        ensures refused { OnErr result (self.new.seen ≡ self.old.seen) }
        ensures grown { OnOk result (set.contains self.old.seen digest ≡ false → HasGrown self.old self.new digest) }
        ensures kept { set.contains self.old.seen digest ≡ true → self.new ≡ self.old }
        ensures lacked { OnErr result (set.contains self.old.seen digest ≡ false) }
        ensures memory { OnErr result (MayGrow self.old digest) }
    {
        if self.contains(&digest) {
            return Ok(true);
        }
        self.add(digest)?;
        Ok(false)
    }

    /// Adds `digest`, which the set lacks. If an allocation is refused, the set has the digests that it had before.
    #[inline(always)]
    fn add(&mut self, digest: [u8; 32]) -> Result<(), AllocError>
        requires { set.contains self.old.seen digest ≡ false }
        ensures added { OnOk result (self.new.seen ≡ set.insert self.old.seen digest) }
        ensures grown { OnOk result (HasGrown self.old self.new digest) }
        ensures refused { OnErr result (self.new.seen ≡ self.old.seen) }
        ensures memory { OnErr result (MayGrow self.old digest) }
    {
        make_room(&mut self.list, &mut self.heads, &mut self.table)?;
        let tag = tag_of(&digest);
        let home = home_of(tag, self.heads.len());
        let head = self.heads[home];
        let at = self.list.len();
        if (head.count as usize) < SLOTS && at < u32::MAX as usize {
            self.list.push(digest)?;
            let slot = Slot { tag, at: at as u32 };
            put(&mut self.table[home], head.count, slot);
            self.heads[home] = head.and_one(tag);
        } else {
            self.rest.insert(digest)?;
            self.heads[home] = Head {
                overflowed: true,
                ..head
            };
        }
        Ok(())
    }
}

impl<A: Allocator> DigestSet<A> {
    /// Returns the number of digests in the set.
    pub fn len(&self) -> usize
        ensures { result ≡ set.len self.now.seen }
    {
        self.list.len() + self.rest.len()
    }

    /// Tests whether the set has `digest`.
    #[inline(always)]
    pub fn contains(&self, digest: &[u8; 32]) -> bool
        ensures { result ≡ set.contains self.now.seen digest.now }
    {
        if self.heads.is_empty() {
            return false;
        }
        let tag = tag_of(digest);
        let at = home_of(tag, self.heads.len());
        if !may_be_in(&self.heads[at], &self.table[at], tag) {
            return false;
        }
        is_among(&self.table[at], &self.list, tag, digest) || self.rest.contains(digest)
    }
}

#[cfg(test)]
mod tests {
    use super::*;
    use std::test::Fail;

    /// Returns a digest that begins with the bytes of `number`. Each other byte is `last`.
    fn digest(number: u32, last: u8) -> [u8; 32] {
        let mut digest = [last; 32];
        digest[..4].copy_from_slice(&number.to_le_bytes());
        digest
    }

    #[test]
    fn digests_of_all_buckets_and_of_one(rt: HostRuntime) -> Result<(), Fail> {
        let mut digests = DigestSet::new(rt.alloc());
        for round in 0..2u8 {
            for number in 0..3_000u32 {
                let was = digests.insert(digest(number.wrapping_mul(0x9E37_79B9), 1))?;
                assert!(rt; was == (round == 1));
            }
            for last in 2..100u8 {
                let was = digests.insert(digest(7, last))?;
                assert!(rt; was == (round == 1));
            }
        }
        assert!(rt; digests.len() == 3_098);
        Ok(())
    }

    /// Tests that none of 1,000,001 digests is refused with ample memory. No contract can say that memory suffices, so
    /// a body that returns an error instead of allocating would satisfy every contract.
    #[test]
    fn more_than_a_million_digests(rt: HostRuntime) -> Result<(), Fail> {
        let mut digests = DigestSet::new(rt.alloc());
        for number in 0..1_000_001u32 {
            let was = digests.insert(digest(number.wrapping_mul(0x9E37_79B9), 1))?;
            assert!(rt; !was);
        }
        assert!(rt; digests.len() == 1_000_001);
        Ok(())
    }
}
