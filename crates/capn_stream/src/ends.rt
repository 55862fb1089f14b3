//! The ends of the segments of a message. The first 63 ends are stored without an allocation.

ghost use Rattle.std.specs.Prelude.{◌≡◌, ◌+◌, ◌-◌, ◌*◌, ◌^◌, ◌<◌, ◌≤◌, ◌∷◌, ◌++◌, [], length, take, sum};
ghost use Rattle.std.specs.Prelude.{slice_index, IfOk, OnErr};
ghost use Rattle.capn_words.specs.Message.{most_segments};
ghost use Rattle.capn_stream.specs.Cuts.{ends_from};
ghost use Rattle.capn_stream.specs.FrameRefusal.{entries, most_few};
ghost use Rattle.capn_stream.specs.inner.KeptEnds.{AreKept, kept};

use crate::table::{ends_of, entry_at, total_of};
use std::alloc::{AllocError, Allocator};

/// The greatest number of ends that are stored in the array.
const MOST_KEPT: usize = 63;

/// The ends of all segments of a message except the last. The first 63 ends are in an array, and the others in a list.
#[derive(Debug, Drop)]
pub(crate) struct Ends<A: Allocator> {
    /// The number of ends in `few` and `rest` together.
    count: usize,
    /// The first 63 ends. The items from index `count` on are not used.
    few: [u32; MOST_KEPT],
    /// The ends from number 63 on.
    rest: Vec<u32, A>,
}

impl<A: Allocator> Ends<A> {
    /// Returns the number of ends.
    #[inline]
    pub(crate) fn count(&self) -> usize
        requires { AreKept self.now }
        ensures { result ≡ length (kept self.now) }
    {
        self.count
    }

    /// Returns the index of the word at which `segment` begins.
    #[inline]
    pub(crate) fn start_of(&self, segment: usize) -> u32
        requires kept { AreKept self.now }
        requires inside { segment ≤ length (kept self.now) }
        ensures { result ≡ slice_index (0 ∷ kept self.now) segment }
    {
        if segment == 0 {
            return 0;
        }
        if segment <= MOST_KEPT {
            return self.few[segment - 1];
        }
        self.rest[segment - MOST_KEPT - 1]
    }

    /// Returns the index of the word at which `segment` ends. The last segment ends with the message, which has `words`
    /// words.
    #[inline]
    pub(crate) fn end_of(&self, words: u32, segment: usize) -> u32
        requires kept { AreKept self.now }
        requires inside { segment ≤ length (kept self.now) }
        ensures { result ≡ slice_index (kept self.now ++ words ∷ []) segment }
    {
        if segment == self.count {
            words
        } else {
            self.start_of(segment + 1)
        }
    }
}

/// Returns the ends, in words, of the first `count` segments with the sizes `sizes`. The items from index `count` on
/// are 0.
fn few_ends(sizes: &[u8], count: usize) -> [u32; MOST_KEPT]
    requires few { count ≤ 63 }
    requires inside { 4 * count ≤ length sizes.now }
    requires room { sum (entries count sizes.now) < 2 ^ 32 }
    ensures { take count result ≡ ends_from 0 (entries count sizes.now) }
{
    let mut ends = [0; MOST_KEPT];
    let mut end: u32 = 0;
    for index in 0..count {
        end += entry_at(sizes, index);
        ends[index] = end;
    }
    ends
}

/// Returns the ends, in words, of the segments from number `first` to number `count - 1`. `sizes` has the sizes of all
/// segments. Takes memory only if `first` is below `count`.
fn rest_ends<A: Allocator>(
    alloc: A,
    sizes: &[u8],
    first: usize,
    count: usize,
) -> Result<Vec<u32, A>, AllocError>
    requires few { count ≤ most_segments }
    requires front { first ≤ count }
    requires inside { 4 * count ≤ length sizes.now }
    requires room { sum (entries count sizes.now) < 2 ^ 32 }
    ensures ends { IfOk result (λ v.
        ends_from 0 (entries first sizes.now) ++ v.items ≡ ends_from 0 (entries count sizes.now)) }
    ensures number { IfOk result (λ v. length v.items ≡ count - first) }
    ensures memory { OnErr result (first < count) }
{
    let from = total_of(sizes, first) as u32;
    ends_of(alloc, &sizes[4 * first..], count - first, from)
}

/// Returns the ends, in words, of the first `count` segments with the sizes `sizes`. Takes memory only if `count` is
/// above 63.
pub(crate) fn read_ends<A: Allocator>(
    alloc: A,
    sizes: &[u8],
    count: usize,
) -> Result<Ends<A>, AllocError>
    requires few { count ≤ most_segments }
    requires inside { 4 * count ≤ length sizes.now }
    requires room { sum (entries count sizes.now) < 2 ^ 32 }
    ensures sound { IfOk result (λ e. AreKept e) }
    ensures ends { IfOk result (λ e. kept e ≡ ends_from 0 (entries count sizes.now)) }
    ensures memory { OnErr result (most_few ≤ count) }
{
    if count <= MOST_KEPT {
        return Ok(Ends {
            count,
            few: few_ends(sizes, count),
            rest: Vec::new(alloc),
        });
    }
    let few = count.min(MOST_KEPT);
    let rest = rest_ends(alloc, sizes, few, count)?;
    Ok(Ends {
        count,
        few: few_ends(sizes, few),
        rest,
    })
}
