//! The packing of one group of any length, which is appended to the text.
ghost use Rattle.std.specs.Prelude.{◌≡◌, ◌+◌, ◌<◌, ◌≤◌, ◌∷◌, ◌++◌, length, take, drop, IfOk, OnOk};
ghost use Rattle.capn_pack.specs.Packed.{tag_of, named_bytes};
ghost use Rattle.capn_pack.specs.inner.Steps.{Puts};

use crate::lanes::gather;
use crate::room::text_room;
use crate::runs::{long_run, word_at, zero_run};
use crate::signs::tag;
use std::alloc::{AllocError, Allocator};

/// Appends `tag` to `out`, and then the bytes of `word` that `tag` names.
#[inline(always)]
fn push_named<A: Allocator>(word: &[u8; 8], tag: u8, out: &mut Vec<u8, A>) -> Result<(), AllocError>
    ensures ok { OnOk result (out.new.items ≡ out.old.items ++ tag ∷ named_bytes tag word.now) }
{
    let end = out.len() + 1 + tag.count_ones() as usize;
    out.extend_from_slice(&gather(*word, tag))?;
    out.truncate(end);
    Ok(())
}

/// Packs the zero word at byte `at` of `bytes`, and up to 255 zero words after it, as one group. Appends the group to
/// `out`. Returns the offset of the next word.
#[inline(always)]
fn put_zeros<A: Allocator>(
    bytes: &[u8],
    at: usize,
    out: &mut Vec<u8, A>,
) -> Result<usize, AllocError>
    requires inside { at + 8 ≤ length bytes.now }
    requires tag { tag_of (take 8 (drop at bytes.now)) ≡ 0 }
    ensures { IfOk result (λ next. Puts bytes.now at next out.old.items out.new.items) }
{
    let more = zero_run(bytes, at + 8);
    out.extend_from_slice(&[0, more as u8])?;
    Ok(at + 8 + 8 * more)
}

/// Packs a raw group from byte `at` of `bytes` on. Its first word has no zero byte. Up to 255 words after the first are
/// part of the group, as long as each has at most one zero byte. Appends the group to `out`. Returns the offset of the
/// next word.
#[inline(always)]
fn put_raw<A: Allocator>(bytes: &[u8], at: usize, out: &mut Vec<u8, A>) -> Result<usize, AllocError>
    requires inside { at + 8 ≤ length bytes.now }
    requires tag { tag_of (take 8 (drop at bytes.now)) ≡ 255 }
    ensures { IfOk result (λ next. Puts bytes.now at next out.old.items out.new.items) }
{
    let start = at + 8;
    let more = long_run(bytes, start);
    let end = start + 8 * more;
    let room = text_room(out, 10 + 8 * more, end, bytes.len());
    out.reserve(room)?;
    out.extend_from_slice(&[255])?;
    out.extend_from_slice(&bytes[at..start])?;
    out.extend_from_slice(&[more as u8])?;
    out.extend_from_slice(&bytes[start..end])?;
    Ok(end)
}

/// Packs the word at byte `at` of `bytes` as a group with the tag `tag`. The word has both zero and other bytes.
/// Appends the group to `out`. Returns the offset of the next word.
#[inline(always)]
fn put_named<A: Allocator>(
    bytes: &[u8],
    at: usize,
    tag: u8,
    out: &mut Vec<u8, A>,
) -> Result<usize, AllocError>
    requires inside { at + 8 ≤ length bytes.now }
    requires tag { tag ≡ tag_of (take 8 (drop at bytes.now)) }
    requires above { 0 < tag }
    requires below { tag < 255 }
    ensures { IfOk result (λ next. Puts bytes.now at next out.old.items out.new.items) }
{
    push_named(&word_at(bytes, at), tag, out)?;
    Ok(at + 8)
}

/// Packs the words at byte `at` of `bytes` as the group that the packer chooses. Appends the group to `out`. Returns
/// the offset in `bytes` at which the next group begins.
pub(crate) fn put_group<A: Allocator>(
    bytes: &[u8],
    at: usize,
    out: &mut Vec<u8, A>,
) -> Result<usize, AllocError>
    requires { at + 8 ≤ length bytes.now }
    ensures { IfOk result (λ next. Puts bytes.now at next out.old.items out.new.items) }
{
    match tag(&word_at(bytes, at)) {
        0 => put_zeros(bytes, at, out),
        255 => put_raw(bytes, at, out),
        tag => put_named(bytes, at, tag, out),
    }
}
