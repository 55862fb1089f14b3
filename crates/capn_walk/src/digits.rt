//! The elements of lists of numbers, read from a word.

ghost use Rattle.std.specs.Prelude.{◌≡◌, ◌<◌};
ghost use Rattle.capn_walk.specs.View as seen;

use capn_words::Width;

/// Returns the number of elements of `width` that fit in a word: 64, 8, 4 or 2, and 1 for any other width.
#[inline(always)]
pub fn per_word(width: Width) -> u32
    ensures value { result ≡ seen.per_word width }
    ensures some { 0 < result }
{
    match width {
        Width::W1 => 64,
        Width::W8 => 8,
        Width::W16 => 4,
        Width::W32 => 2,
        _ => 1,
    }
}

/// Returns element `place` of `word`, which holds elements of `width`. Elements are counted from the least significant
/// bits.
#[inline(always)]
pub fn digit(width: Width, word: u64, place: u32) -> u64
    requires { place < seen.per_word width }
    ensures { result ≡ seen.digit width word place }
{
    match width {
        Width::W1 => word >> place & 1,
        Width::W8 => word >> (8 * place) & 0xff,
        Width::W16 => word >> (16 * place) & 0xffff,
        Width::W32 => word >> (32 * place) & 0xffff_ffff,
        _ => word,
    }
}
