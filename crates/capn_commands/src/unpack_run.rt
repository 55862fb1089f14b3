//! Unpacking of a complete stream.

ghost use Rattle.std.specs.Prelude.{◌≡◌, false};
ghost use Rattle.capn_words.specs.Watched.{inner_of, has_failed};
ghost use Rattle.capn_commands.specs.Flow.{Runs};
ghost use Rattle.capn_commands.specs.UnpackRun.{WritesGroups, WritesSome, ending_of, unpacking};

use crate::flow_fault::FlowFault;
use capn_pack::{Next, Progress, unpack_some};
use capn_words::Watched;
use std::alloc::Allocator;
use std::io::{Read, Write};

/// The greatest number of bytes that one call of a reader may return.
const CHUNK: usize = 65_536;

/// The greatest number of bytes of an unfinished group.
const UNFINISHED: usize = 2049;

/// The greatest number of words that are held at once. A group has fewer words.
const WORDS: u32 = 16_384;

/// Writes the words of the first complete groups of `bytes`, at most 16,384 words. `words` is a buffer, which is
/// overwritten.
fn write_some<W: Write, A: Allocator + Copy>(
    bytes: &[u8],
    words: &mut Vec<u8, A>,
    writer: &mut Watched<W>,
) -> Result<Progress, FlowFault>
    requires fine { has_failed writer.old ≡ false }
    ensures { WritesSome bytes.now (W.contents (inner_of writer.old)) (W.contents (inner_of writer.new))
        (has_failed writer.new) result }
{
    words.clear();
    let progress = unpack_some(bytes, WORDS, words)?;
    writer.write_all(words)?;
    Ok(progress)
}

/// Writes the words of all complete groups at the start of `bytes`, and returns the number of bytes of those groups.
/// `words` is a buffer, which is overwritten.
fn write_groups<W: Write, A: Allocator + Copy>(
    bytes: &[u8],
    words: &mut Vec<u8, A>,
    writer: &mut Watched<W>,
) -> Result<usize, FlowFault>
    requires fine { has_failed writer.old ≡ false }
    ensures { WritesGroups bytes.now (W.contents (inner_of writer.old)) (W.contents (inner_of writer.new))
        (has_failed writer.new) result }
{
    let mut at = 0;
    'parts: loop {
        let progress = write_some(&bytes[at..], words, writer)?;
        at += progress.bytes;
        match progress.next {
            Next::TooLong => {}
            Next::End | Next::Cut => return Ok(at),
        }
    }
}

/// Returns the outcome of a run at the end of the input. `rest` has the bytes after the last complete group. The offset
/// of `rest` in the input is `offset`.
fn end_of_unpacking(rest: &[u8], offset: u64) -> Result<(), FlowFault>
    ensures { result ≡ ending_of false rest.now offset }
{
    if rest.is_empty() {
        return Ok(());
    }
    Err(FlowFault::Cut(offset))
}

/// Unpacks a stream in chunks of at most 65,536 bytes of `reader`. Before each read, the words of all complete groups
/// have been written to `writer`. (Page: packing; the rest is our own.)
///
/// At most 2^64 - 1 bytes of the stream are unpacked. One more byte may be read, to find out whether the stream is
/// longer. The number of words has no maximum. `Io` is returned if and only if the reader or the writer failed.
/// `Memory` is returned if an allocation was refused, and only after at least one byte of input. `InputTooLong` is
/// returned if the stream has more than 2^64 - 1 bytes. `Cut`, with the offset of the tag of a group, is returned if
/// the input ends within that group. Before `InputTooLong` and `Cut` the words of all complete groups were written.
/// Before `Memory` and `Io` a prefix of these words was written. The run holds a chunk, an unfinished group of at most
/// 2,049 bytes, and up to 16,384 words, which are written at once. The buffer for the words grows by doubling, and has
/// less than 512 KiB for any input.
pub fn unpack_stream<R: Read, W: Write, A: Allocator + Copy>(
    alloc: A,
    reader: &mut Watched<R>,
    writer: &mut Watched<W>,
) -> Result<(), FlowFault>
    requires reader_fine { has_failed reader.old ≡ false }
    requires writer_fine { has_failed writer.old ≡ false }
    ensures { Runs unpacking (R.remaining (inner_of reader.old)) (R.remaining (inner_of reader.new))
        (W.contents (inner_of writer.old)) (W.contents (inner_of writer.new)) (has_failed reader.new)
        (has_failed writer.new) result }
{
    let mut words = Vec::new(alloc);
    let mut buffer = [0; UNFINISHED + CHUNK];
    let mut held = 0;
    let mut taken = 0;
    'chunks: loop {
        let left = u64::MAX - taken;
        let room = left.min(CHUNK as u64 - 1) + 1;
        match reader.read(&mut buffer[held..held + room as usize]) {
            Err(_) => return Err(FlowFault::Io),
            Ok(0) => return end_of_unpacking(&buffer[..held], taken - held as u64),
            Ok(count) => {
                let within = left.min(count as u64);
                let end = held + within as usize;
                let at = write_groups(&buffer[..end], &mut words, writer)?;
                if within < count as u64 {
                    return Err(FlowFault::InputTooLong);
                }
                taken += within;
                buffer.copy_within(at..end, 0);
                held = end - at;
            }
        }
    }
}
