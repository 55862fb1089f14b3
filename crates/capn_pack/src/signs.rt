//! The tags of one word and of eight words, read from the sign bits of vector lanes.
ghost use Rattle.std.specs.Prelude.{◌≡◌, ◌+◌, ◌*◌, ◌<◌, ◌≤◌, length, take, drop, replicate};
ghost use Rattle.capn_pack.specs.Packed.{tag_of};
ghost use Rattle.capn_pack.specs.Chosen.{AllDense, IsDense};

use std::simd::prelude::*;

/// Returns the tag of the word `bytes`, read from the sign bits of a comparison of the word's lanes with zero.
///
/// The result equals the result of [`tag`](crate::tag). The compiler turns a test of this result for zero into one
/// comparison of eight bytes. Long runs of zero words are then found faster.
#[inline(always)]
pub(crate) fn tag(bytes: &[u8; 8]) -> u8
    ensures { result ≡ tag_of bytes.now }
{
    u8x8::from_array(*bytes)
        .simd_ne(u8x8::splat(0))
        .to_bitmask() as u8
}

/// Returns the tag of the first of the two words of `bytes`.
///
/// Both words are loaded as one vector of sixteen lanes, which a longer test of the same words can then use.
#[inline(always)]
pub(crate) fn first_tag(bytes: &[u8; 16]) -> u8
    ensures { result ≡ tag_of (take 8 bytes.now) }
{
    let tags = u8x16::from_array(*bytes)
        .simd_ne(u8x16::splat(0))
        .to_bitmask();
    (tags % 256) as u8
}

/// Returns the tags of the eight words of `bytes`. The tag of the first word is in the least significant bits.
#[inline(always)]
fn eight_tags(bytes: &[u8; 64]) -> u64
    ensures { result ≡ tag_of bytes.now }
{
    u8x64::from_array(*bytes)
        .simd_ne(u8x64::splat(0))
        .to_bitmask()
}

/// Returns how many of the eight words of `bytes` are zero before the first word that is not.
#[inline(always)]
pub(crate) fn first_zeros(bytes: &[u8; 64]) -> usize
    ensures most { result ≤ 8 }
    ensures zeros { take (8 * result) bytes.now ≡ replicate (8 * result) 0 }
    ensures last { result < 8 → take 8 (drop (8 * result) bytes.now) ≡ replicate 8 0 → ⊥ }
{
    let tags = eight_tags(bytes);
    // The test costs less than the count, and its result is mostly the same.
    if tags == 0 {
        return 8;
    }
    tags.trailing_zeros() as usize / 8
}

/// Returns how many of the eight words of `bytes` are dense before the first word that is not.
///
/// A tag has at most one bit that is 0 exactly if adding 1 to its seven lowest bits sets all bits that are 0. No sum
/// has more than eight bits, so one addition serves for all eight tags.
#[inline(always)]
pub(crate) fn first_dense(bytes: &[u8; 64]) -> usize
    ensures most { result ≤ 8 }
    ensures dense { AllDense result (take (8 * result) bytes.now) }
    ensures last { result < 8 → IsDense (take 8 (drop (8 * result) bytes.now)) → ⊥ }
{
    let tags = eight_tags(bytes);
    let gaps = !(tags | ((tags & 0x7F7F_7F7F_7F7F_7F7F) + 0x0101_0101_0101_0101));
    // The test costs less than the count, and its result is mostly the same.
    if gaps == 0 {
        return 8;
    }
    gaps.trailing_zeros() as usize / 8
}
