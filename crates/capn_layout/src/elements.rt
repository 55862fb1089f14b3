//! The functions that append bytes as zero-padded words, with one allocation. Any change here that alters canonical
//! bytes makes a new version of the canonical form.

ghost use Rattle.std.specs.Prelude.{◌≡◌, ◌+◌, ◌*◌, ◌^◌, ◌<◌, ◌++◌, length, replicate, IfOk, OnOk, OnErr};
ghost use Rattle.capn_layout.specs.inner.PaddedBytes.{pad, padded};

use capn_value::Memory;
use std::alloc::Allocator;

/// Appends `size` zeros to `bytes`, and further zeros up to a complete word. Returns the offset of the first zero.
fn append_room<A: Allocator>(bytes: &mut Vec<u8, A>, size: usize) -> Result<usize, Memory>
    ensures start { IfOk result (λ start. start ≡ length bytes.old.items) }
    ensures small { OnOk result (length bytes.old.items + size < 2 ^ 63) }
    ensures ok { OnOk result (bytes.new.items ≡ bytes.old.items ++ replicate (size + pad size) 0) }
    ensures err { OnErr result (bytes.new.items ≡ bytes.old.items) }
{
    let start = bytes.len();
    let words = size.div_ceil(8);
    bytes.resize(start.saturating_add(words.saturating_mul(8)), 0)?;
    Ok(start)
}

/// Appends the bytes `xs` to `bytes`, and then zeros up to a complete word. If an allocation was refused, returns
/// `Memory` and leaves `bytes` unchanged.
pub fn append_bytes<A: Allocator>(bytes: &mut Vec<u8, A>, xs: &[u8]) -> Result<(), Memory>
    ensures ok { OnOk result (bytes.new.items ≡ bytes.old.items ++ padded xs.now) }
    ensures err { OnErr result (bytes.new.items ≡ bytes.old.items) }
{
    let start = append_room(bytes, xs.len())?;
    bytes[start..start + xs.len()].copy_from_slice(xs);
    Ok(())
}
