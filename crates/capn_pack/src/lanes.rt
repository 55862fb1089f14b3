//! Shuffles between a word and the bytes that its tag names, in eight or sixteen lanes of a vector.
ghost use Rattle.std.specs.Prelude.{◌≡◌, ◌+◌, ◌≤◌, ◌∷◌, ◌++◌, length, take, replicate, count_ones, ℕ};
ghost use Rattle.capn_pack.specs.Packed.{tag_of, named_bytes, IsNamedBy};

use crate::gather_table::gather_places;
use crate::spread_table::spread_places;
use std::simd::prelude::*;

/// Returns the tag of the word `bytes`. Bit i of the tag is 1 if and only if byte i is not zero. (Page: packing.)
///
/// The tag is the sum of the weights of the lanes that are not zero. Takes no memory.
#[inline(always)]
pub fn tag(bytes: &[u8; 8]) -> u8
    ensures { result ≡ tag_of bytes.now }
{
    let weights = u8x8::from_array([1, 2, 4, 8, 16, 32, 64, 128]);
    u8x8::from_array(*bytes)
        .simd_ne(u8x8::splat(0))
        .select(weights, u8x8::splat(0))
        .reduce_sum()
}

/// Returns the first sixteen bytes of `bytes`. If `bytes` has fewer, zeros are added.
#[inline(always)]
fn window(bytes: &[u8]) -> u8x16
    ensures { (n : ℕ) → n ≤ 16 → n ≤ length bytes.now → take n result ≡ take n bytes.now }
{
    if bytes.len() >= 16 {
        return u8x16::from_slice(bytes);
    }
    let mut window = [0; 16];
    window[..bytes.len()].copy_from_slice(bytes);
    u8x16::from_array(window)
}

/// Returns the word that has the first bytes of `lanes`, in order, as the bytes that `tag` names, and zeros elsewhere.
#[inline(always)]
fn spread_lanes(tag: u8, lanes: u8x16) -> [u8; 8]
    ensures named { IsNamedBy tag result }
    ensures bytes { named_bytes tag result ≡ take (count_ones tag) lanes }
{
    let places = spread_places(tag);
    lanes.swizzle_dyn(places).extract::<0, 8>().to_array()
}

/// Returns the word that has the first bytes of `bytes`, in order, as the bytes that `tag` names, and zeros elsewhere.
#[inline(always)]
pub(crate) fn spread(tag: u8, bytes: &[u8]) -> [u8; 8]
    requires { count_ones tag ≤ length bytes.now }
    ensures named { IsNamedBy tag result }
    ensures bytes { named_bytes tag result ≡ take (count_ones tag) bytes.now }
{
    spread_lanes(tag, window(bytes))
}

/// Returns the word that has the first bytes of `bytes`, in order, as the bytes that `tag` names, and zeros elsewhere.
/// `bytes` has at least sixteen bytes, which are read in place. [`spread`] accepts fewer, and copies those first.
#[inline(always)]
pub(crate) fn spread_far(tag: u8, bytes: &[u8]) -> [u8; 8]
    requires { 16 ≤ length bytes.now }
    ensures named { IsNamedBy tag result }
    ensures bytes { named_bytes tag result ≡ take (count_ones tag) bytes.now }
{
    spread_lanes(tag, u8x16::from_slice(bytes))
}

#[inline(always)]
fn widened(word: [u8; 8]) -> u8x16
    ensures { result ≡ word ++ replicate 8 0 }
{
    u8x8::from_array(word).shuffle(
        u8x8::splat(0),
        [0, 1, 2, 3, 4, 5, 6, 7, 8, 9, 10, 11, 12, 13, 14, 15],
    )
}

/// Returns `tag`, then the bytes of `word` that `tag` names, and then unspecified bytes.
#[inline(always)]
pub(crate) fn gather(word: [u8; 8], tag: u8) -> [u8; 16]
    ensures { take (1 + count_ones tag) result ≡ tag ∷ named_bytes tag word }
{
    let lanes = widened(word);
    let places = gather_places(tag);
    let first = u8x16::from_array([tag, 0, 0, 0, 0, 0, 0, 0, 0, 0, 0, 0, 0, 0, 0, 0]);
    (lanes.swizzle_dyn(places) | first).to_array()
}
