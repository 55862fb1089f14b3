//! Lists of elements without pointers, copied from the message. Any change here that alters canonical bytes makes a new
//! version of the canonical form.

ghost use Rattle.std.specs.Prelude.{◌≡◌, ◌^◌, ◌<◌, ◌+◌, ◌*◌, ◌≤◌, length};
ghost use Rattle.capn_words.specs.Message.{IsMessage};
ghost use Rattle.capn_walk.specs.ValueAt.{words_from};
ghost use Rattle.capn_target.specs.Target.{words_for};
ghost use Rattle.capn_target.specs.Shapes.{IsContent, IsPlain};
ghost use Rattle.capn_layout.specs.FirstBits.{element_bits, first_bits};
ghost use Rattle.capn_layout.specs.inner.Draft.{Appends};

use crate::draft::{extend, push};
use capn_target::counted::{CountedSpace, Reads};
use capn_words::{Place, Space, Width};
use std::sync::ledger::Ledger;

/// Returns the number of bits of an element of `width`.
pub fn bits_of(width: Width) -> u64
    requires { IsPlain width }
    ensures { result ≡ element_bits width }
{
    match width {
        Width::W0 => 0,
        Width::W1 => 1,
        Width::W8 => 8,
        Width::W16 => 16,
        Width::W32 => 32,
        Width::W64 => 64,
        Width::Link | Width::Rows => unreachable!(),
    }
}

/// Copies the first `bits` bits of the message's words from `start` on. The bits are written after the first `len`
/// words of `out`, and further bits, up to a complete word, are 0. Returns the new number of words.
pub fn append_bits<S: Space, L: Ledger>(
    space: &CountedSpace<'_, S, L>,
    start: Place,
    bits: u64,
    out: &mut [u8],
    len: usize,
    reads: &mut Reads<L>,
) -> usize
    requires message { IsMessage space.now }
    requires content { IsContent space.now start (words_for bits) }
    requires few { bits < 2 ^ 36 }
    requires room { 8 * (len + words_for bits) ≤ length out.old }
    ensures appends { Appends len result (first_bits bits (words_from space.now start.segment start.word))
        out.old out.new }
    ensures reads { reads.new ≤ reads.old + words_for bits }
{
    let full = (bits / 64) as u32;
    let rest = bits % 64;
    let end = extend(out, len, space.bytes(start, 8 * full as usize, reads));
    if rest == 0 {
        return end;
    }
    let last = Place {
        segment: start.segment,
        word: start.word + full,
    };
    push(out, end, space.word(last, reads) % (1 << rest))
}
