//! A slot of the table, and the head of a bucket.

ghost use Rattle.std.specs.Prelude.{◌≡◌, ℕ, ◌+◌, ◌<◌, ◌%◌, true, length, slice_set};
ghost use Rattle.capn_digests.specs.Tag.{tag, marks, more};
ghost use Rattle.capn_digests.specs.Buckets.{IsMarked};

/// The number of slots of a bucket.
pub(crate) const SLOTS: usize = 16;

/// A slot in the middle of a bucket, near the first free one.
const NEXT: usize = 6;

/// The entry of one digest in a bucket: the tag of the digest, and the index of the digest in the list.
#[derive(Clone, Copy)]
pub(crate) struct Slot {
    pub(crate) tag: u32,
    pub(crate) at: u32,
}

pub(crate) const NO_SLOT: Slot = Slot { tag: 0, at: 0 };

/// The head of a bucket: marks of the tags in its slots, the number of slots that are taken, and a flag. The flag is
/// set if the tree has a digest of the bucket.
#[derive(Clone, Copy)]
pub(crate) struct Head {
    pub(crate) marks: u32,
    pub(crate) more: u16,
    pub(crate) count: u8,
    pub(crate) overflowed: bool,
}

pub(crate) const NO_HEAD: Head = Head {
    marks: 0,
    more: 0,
    count: 0,
    overflowed: false,
};

/// Returns the tag of `digest`: its first four bytes, as a little-endian number.
#[inline(always)]
#[tactic(auto, unfolding(crate::specs::Tag::tag))]
pub(crate) fn tag_of(digest: &[u8; 32]) -> u32
    ensures { result ≡ tag digest.now }
{
    digest[0] as u32
        + digest[1] as u32 * 0x100
        + digest[2] as u32 * 0x1_0000
        + digest[3] as u32 * 0x100_0000
}

/// Returns the bucket of `tag` among `buckets` buckets. No division is made if `buckets` is a power of two, as it is in
/// every table that doubled from one bucket.
#[inline(always)]
pub(crate) fn home_of(tag: u32, buckets: usize) -> usize
    requires { 0 < buckets }
    ensures { result ≡ tag % buckets }
{
    let zeros = buckets.trailing_zeros() % usize::BITS;
    if 1usize << zeros == buckets {
        return tag as usize & (buckets - 1);
    }
    tag as usize % buckets
}

/// Returns the mask of the one or two bits that `tag` sets in `marks` of a head.
#[inline(always)]
pub(crate) fn marks_of(tag: u32) -> u32
    ensures { result ≡ marks tag }
{
    (1u32 << (tag >> 27)) | (1u32 << ((tag >> 22) % 32))
}

/// Returns the mask of the one bit that `tag` sets in `more` of a head.
#[inline(always)]
pub(crate) fn more_of(tag: u32) -> u16
    ensures { result ≡ more tag }
{
    1u16 << ((tag >> 18) % 16)
}

impl Head {
    /// Returns `false` only if no digest with `tag`, a tag of this bucket, is in the bucket or in the tree.
    #[inline(always)]
    pub(crate) fn may_have(self, tag: u32) -> bool
        ensures marked { IsMarked self tag → result ≡ true }
        ensures overflowed { self.overflowed ≡ true → result ≡ true }
    {
        let marks = marks_of(tag);
        let more = more_of(tag);
        self.overflowed || (self.marks & marks == marks && self.more & more == more)
    }

    /// Returns this head with one more slot taken and `tag` marked.
    #[inline(always)]
    pub(crate) fn and_one(self, tag: u32) -> Head
        requires { self.count < 16 }
        ensures marked { IsMarked result tag }
        ensures kept { (t : ℕ) → IsMarked self t → IsMarked result t }
        ensures count { result.count ≡ self.count + 1 }
        ensures overflowed { result.overflowed ≡ self.overflowed }
    {
        Head {
            marks: self.marks | marks_of(tag),
            more: self.more | more_of(tag),
            count: self.count + 1,
            overflowed: self.overflowed,
        }
    }
}

/// Returns `false` only if no digest with `tag`, a tag of this bucket, is in the bucket or in the tree.
///
/// `head` decides nearly always. The processor waits for `head` and for `bucket` at the same time, because the address
/// of neither depends on the other. So a slot that is put into `bucket` next has no wait of its own.
#[inline(always)]
pub(crate) fn may_be_in(head: &Head, bucket: &[Slot; SLOTS], tag: u32) -> bool
    ensures marked { IsMarked head.now tag → result ≡ true }
    ensures overflowed { head.now.overflowed ≡ true → result ≡ true }
{
    bucket[NEXT].tag == tag || head.may_have(tag)
}

/// Puts `slot` into `bucket` at index `place`.
#[inline(always)]
pub(crate) fn put(bucket: &mut [Slot; SLOTS], place: u8, slot: Slot)
    requires { place < 16 }
    ensures set { bucket.new ≡ slice_set bucket.old place slot }
    ensures whole { length bucket.old ≡ 16 }
{
    bucket[place as usize] = slot;
}
