//! Vectors of zeros.

ghost use Rattle.std.specs.Prelude.{◌≡◌, length, IfOk};

use capn_value::Memory;
use std::alloc::Allocator;

/// The number of zeros that are copied at once.
const BLOCK: usize = 1024;

/// A block of zeros, from which zeros are copied.
static ZEROS: [u8; 1024] = [0; 1024];

/// Returns a vector of `size` zeros. The memory is allocated on `alloc` at once, and `Memory` is returned only if that
/// allocation was refused.
///
/// The zeros are copied a block at a time, which is faster than one by one.
pub fn zeros<A: Allocator>(alloc: A, size: usize) -> Result<Vec<u8, A>, Memory>
    ensures { IfOk result (λ bytes. length bytes.items ≡ size) }
{
    let mut bytes = Vec::with_capacity(alloc, size)?;
    for _block in 0..size / BLOCK {
        bytes.extend_from_slice(&ZEROS)?;
    }
    bytes.extend_from_slice(&ZEROS[..size % BLOCK])?;
    Ok(bytes)
}
