//! Lists of bits, packed in words. Any change here that alters canonical bytes makes a new version of the canonical
//! form.

ghost use Rattle.std.specs.Prelude.{◌≡◌, ◌+◌, ◌*◌, ◌≤◌, length, map};
ghost use Rattle.std.specs.Int.{from_bool};
ghost use Rattle.capn_target.specs.Target.{words_for};
ghost use Rattle.capn_layout.specs.Layout.{number, packed};
ghost use Rattle.capn_layout.specs.inner.Draft.{Appends};

use crate::draft::push;

/// Returns the word whose lowest bits are `bits`, the first bit lowest. All other bits of the word are 0.
fn word_of_bits(bits: &[bool]) -> u64
    requires { length bits.now ≤ 64 }
    ensures { result ≡ number 2 (map from_bool bits.now) }
{
    let len = bits.len();
    let mut word = 0;
    for i in 0..len {
        word = word * 2 + bits[len - 1 - i] as u64;
    }
    word
}

/// Appends `bits`, packed 64 to a word, after the first `len` words of `out`. Returns the new number of words.
pub fn extend_bits(out: &mut [u8], len: usize, bits: &[bool]) -> usize
    requires { 8 * (len + words_for (length bits.now)) ≤ length out.old }
    ensures { Appends len result (packed 64 1 (words_for (length bits.now)) (map from_bool bits.now)) out.old out.new }
{
    let size = bits.len();
    let words = size.div_ceil(64);
    let mut end = len;
    for i in 0..words {
        let first = 64 * i;
        let last = size.min(first + 64);
        end = push(out, end, word_of_bits(&bits[first..last]));
    }
    end
}
