//! The progress of filling a block, and the copying of bytes into a block.
ghost use Rattle.std.specs.Prelude.{◌≡◌, ◌+◌, ◌≤◌, ◌++◌, length, take};

/// The progress of filling a block: how much of the input was read, and how much of the block is filled.
#[derive(Clone, Copy)]
pub(crate) struct Block {
    /// The offset in the input of the first byte that was not read.
    pub at: usize,
    /// The number of bytes of the block that are filled.
    pub fill: usize,
}

/// Copies `bytes` to `block`, from offset `at` on.
#[inline(always)]
pub(crate) fn store_bytes(block: &mut [u8], at: usize, bytes: &[u8])
    requires { at + length bytes.now ≤ length block.old }
    ensures { take (at + length bytes.now) block.new ≡ take at block.old ++ bytes.now }
{
    let end = at + bytes.len();
    block[at..end].copy_from_slice(bytes);
}
