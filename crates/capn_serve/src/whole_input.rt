//! Reads an input to its end, and keeps only its first bytes.

ghost use Rattle.std.specs.Prelude.{◌≡◌, false};
ghost use Rattle.capn_words.specs.Watched.{inner_of, has_failed};
ghost use Rattle.capn_serve.specs.WholeInput.{IsBeginning, TakesAll};

use crate::chunk::CHUNK;
use crate::fault::RunFault;
use capn_words::Watched;
use std::alloc::Allocator;
use std::io::Read;

/// The greatest number of bytes of an input that is read to its end.
pub const MOST_INPUT: usize = 1 << 32;

/// The first bytes of an input, and its length.
#[derive(Drop)]
pub struct WholeInput<A: Allocator> {
    /// The first bytes of the input. The argument `most` of [`read_all`] limits their number.
    pub bytes: Vec<u8, A>,
    /// The number of all bytes of the input.
    pub len: usize,
}

/// Reads an input to its end, and keeps at most the first `most` bytes. Later bytes are only counted.
///
/// Each call of the reader requests at most 65,536 bytes. At most 2^32 + 1 bytes are read in all. `InputTooLong` is
/// returned if the input has more than 2^32 bytes, and `Io` if the reader failed. `Memory` is returned if an allocation
/// was refused, after at least one byte was read.
pub fn read_all<R: Read, A: Allocator>(
    alloc: A,
    reader: &mut Watched<R>,
    most: usize,
) -> Result<WholeInput<A>, RunFault>
    requires { has_failed reader.old ≡ false }
    ensures { TakesAll (IsBeginning most) (R.remaining (inner_of reader.old)) (R.remaining (inner_of reader.new))
        (has_failed reader.new) result }
{
    let mut bytes = Vec::new(alloc);
    let mut chunk = [0; CHUNK as usize];
    let mut len = 0;
    'chunks: while len <= MOST_INPUT {
        let room = (MOST_INPUT + 1 - len).min(CHUNK as usize);
        match reader.read(&mut chunk[..room]) {
            Err(_) => return Err(RunFault::Io),
            Ok(0) => return Ok(WholeInput { bytes, len }),
            Ok(count) => {
                let kept = count.min(most - bytes.len());
                bytes.extend_from_slice(&chunk[..kept])?;
                len += count;
            }
        }
    }
    Err(RunFault::InputTooLong)
}
