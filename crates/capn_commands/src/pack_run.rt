//! Packing of a complete stream.

ghost use Rattle.std.specs.Prelude.{◌≡◌, ◌⊎◌, ◌+◌, ◌%◌, ◌<◌, ◌≤◌, ℕ, drop, length, true, false, IfOk};
ghost use Rattle.capn_pack.specs.Chosen.{AllDense, Chosen, zero_count};
ghost use Rattle.capn_words.specs.Watched.{inner_of, has_failed};
ghost use Rattle.capn_commands.specs.Flow.{Ends, Runs};
ghost use Rattle.capn_commands.specs.PackRun.{
  IsSettled,
  MayGoOn,
  PacksPart,
  Settles,
  ending_of,
  most_held,
  most_open,
  last_word,
  packing,
  packing_last,
};

use crate::flow_fault::FlowFault;
use capn_pack::{pack, unpack_some};
use capn_words::Watched;
use std::alloc::{AllocError, Allocator};
use std::io::{Read, Write};

/// The greatest number of bytes that one call of a reader may return.
const CHUNK: u64 = 65_536;

/// The greatest number of words of a group.
const RUN: u32 = 256;

/// The number of bytes of the longest run that may continue with a further word: 255 words.
const OPEN: usize = 2040;

/// The settled prefix of a packed text. No later word changes this prefix. `text` and `words` are the lengths, in
/// bytes, of the prefix and of the words that are packed in the prefix.
#[derive(Clone, Copy)]
struct Settled {
    text: usize,
    words: usize,
}

/// Tests whether a group with this `tag` and number of `words` is a run that may continue with a further word.
fn may_go_on(tag: u8, words: u32) -> bool
    ensures open { result ≡ true → words < 256 }
    ensures tag { result ≡ true → (tag ≡ 0) ⊎ (tag ≡ 255) }
    ensures closed { result ≡ false → words < 256 → (0 < tag) × (tag < 255) }
{
    words < RUN && (tag == 0 || tag == 255)
}

/// Counts the zero bytes of `bytes`.
fn zeros_of(bytes: &[u8]) -> usize
    ensures { result ≡ zero_count bytes.now }
{
    let mut zeros = 0;
    for byte in bytes {
        if *byte == 0 {
            zeros += 1;
        }
    }
    zeros
}

/// Returns the number of bytes at the front of `words` that can be packed now. A word is dense if at most one of its
/// bytes is zero. The dense words at the end are left out, because a run of dense words may continue in the next bytes.
/// If more than 255 words at the end are dense, or if all words are dense, the length of `words` is returned.
fn before_dense(words: &[u8]) -> usize
    requires { length words.now % 8 ≡ 0 }
    ensures whole { result % 8 ≡ 0 }
    ensures inside { result ≤ length words.now }
    ensures near { length words.now ≤ result + most_open }
    ensures dense { (n : ℕ) × AllDense n (drop result words.now) }
{
    let mut cut = words.len();
    while cut > 0 {
        if words.len() - cut > OPEN {
            return words.len();
        }
        if zeros_of(&words[cut - 8..cut]) > 1 {
            return cut;
        }
        cut -= 8;
    }
    words.len()
}

/// Returns the settled prefix of `text`, the packed text of `words`. The last word is zero, so the last group is a run
/// of zero words. The last byte of `text` is one less than the number of words of that run.
fn zeros_part(words: &[u8], text: &[u8]) -> Settled
    requires some { 8 ≤ length words.now }
    requires chosen { Chosen text.now words.now }
    requires zeros { zero_count (last_word words.now) ≡ 8 }
    ensures { IsSettled text.now words.now result.text result.words }
{
    let more = text[text.len() - 1];
    if more == 255 {
        return Settled {
            text: text.len(),
            words: words.len(),
        };
    }
    Settled {
        text: text.len() - 2,
        words: words.len() - 8 * (1 + more as usize),
    }
}

/// Returns the settled prefix of `text`, the packed text of `words`. The groups before the last group are unpacked, to
/// find where the last group begins.
fn unpacked_part<A: Allocator + Copy>(
    alloc: A,
    words: &[u8],
    text: &[u8],
) -> Result<Settled, AllocError>
    requires some { 8 ≤ length words.now }
    requires short { length words.now ≤ 131072 }
    requires chosen { Chosen text.now words.now }
    ensures { IfOk result (λ s. IsSettled text.now words.now s.text s.words) }
{
    let count = (words.len() / 8) as u32;
    let mut unpacked = Vec::new(alloc);
    let progress = unpack_some(text, count - 1, &mut unpacked)?;
    if may_go_on(text[progress.bytes], count - progress.words) {
        return Ok(Settled {
            text: progress.bytes,
            words: 8 * progress.words as usize,
        });
    }
    Ok(Settled {
        text: text.len(),
        words: words.len(),
    })
}

/// Returns the settled prefix of `text`, the packed text of `words`. If the last group is a run that may continue, the
/// text before that group is settled. Otherwise all of `text` is settled. A zero word at the end is in a run of zero
/// words, and a dense word at the end may be in a run of raw words. Any other last word is a group of its own.
fn settled_part<A: Allocator + Copy>(
    alloc: A,
    words: &[u8],
    text: &[u8],
) -> Result<Settled, AllocError>
    requires short { length words.now ≤ 131072 }
    requires chosen { Chosen text.now words.now }
    ensures { IfOk result (λ s. IsSettled text.now words.now s.text s.words) }
{
    if words.len() < 8 {
        return Ok(Settled { text: 0, words: 0 });
    }
    let zeros = zeros_of(&words[words.len() - 8..]);
    if zeros < 2 {
        return unpacked_part(alloc, words, text);
    }
    if zeros == 8 {
        return Ok(zeros_part(words, text));
    }
    Ok(Settled {
        text: text.len(),
        words: words.len(),
    })
}

/// The settled text of some bytes, and the bytes after the words that the settled text packs.
#[derive(Drop)]
struct Settlement<A: Allocator + Copy> {
    text: Vec<u8, A>,
    rest: Vec<u8, A>,
}

/// Packs the complete words of `held`, as far as their text is settled. Dense words at the end stay in `rest` if a run
/// of dense words may continue. So the groups before that run need not be unpacked to find where the run starts.
fn settle<A: Allocator + Copy>(alloc: A, held: &[u8]) -> Result<Settlement<A>, AllocError>
    requires short { length held.now ≤ 131072 }
    ensures settled { IfOk result (λ s. Settles held.now s.text.items s.rest.items) }
    ensures short { IfOk result (λ s. length s.rest.items < most_held) }
    ensures few { IfOk result (λ s. length s.rest.items ≤ length held.now) }
    ensures open { IfOk result (λ s. MayGoOn s.rest.items) }
{
    let whole = held.len() / 8 * 8;
    let cut = before_dense(&held[..whole]);
    let Ok(mut text) = pack(alloc, &held[..cut]) else {
        return Err(AllocError);
    };
    let part = settled_part(alloc, &held[..cut], &text)?;
    text.truncate(part.text);
    let mut rest = Vec::new(alloc);
    rest.extend_from_slice(&held[part.words..])?;
    Ok(Settlement { text, rest })
}

/// Appends `bytes` to `held`, and writes the settled prefix of the packed text of `held`. Leaves in `held` the bytes
/// that are not packed yet.
fn pack_chunk<W: Write, A: Allocator + Copy>(
    alloc: A,
    held: &mut Vec<u8, A>,
    bytes: &[u8],
    writer: &mut Watched<W>,
) -> Result<(), FlowFault>
    requires fine { has_failed writer.old ≡ false }
    requires held { length held.old.items < most_held }
    requires short { length bytes.now ≤ 65536 }
    ensures { PacksPart held.old.items bytes.now (W.contents (inner_of writer.old)) (W.contents (inner_of writer.new))
        (has_failed writer.new) result held.new.items }
{
    held.extend_from_slice(bytes)?;
    let settlement = settle(alloc, held)?;
    writer.write_all(&settlement.text)?;
    *held = settlement.rest;
    Ok(())
}

/// Returns the outcome of a run over `count` bytes: `InputTooLong` if `is_longer` is set, else `NotWhole` if `count` is
/// no multiple of eight, else `Ok`.
fn end_after(count: u64, is_longer: bool) -> Result<(), FlowFault>
    ensures { result ≡ ending_of is_longer count }
{
    if is_longer {
        return Err(FlowFault::InputTooLong);
    }
    if count % 8 != 0 {
        return Err(FlowFault::NotWhole(count));
    }
    Ok(())
}

/// Writes the packed text of the complete words of `held`, the last words that the run packs, to `writer`. Returns the
/// outcome of the run, which took `count` bytes in all. If `is_longer` is set, the stream has more bytes, and the
/// outcome is an error.
fn pack_last<W: Write, A: Allocator + Copy>(
    alloc: A,
    held: &[u8],
    count: u64,
    is_longer: bool,
    writer: &mut Watched<W>,
) -> Result<(), FlowFault>
    requires fine { has_failed writer.old ≡ false }
    ensures { Ends (packing_last count) held.now is_longer (W.contents (inner_of writer.old))
        (W.contents (inner_of writer.new)) (has_failed writer.new) result }
{
    let whole = held.len() / 8 * 8;
    match pack(alloc, &held[..whole]) {
        Err(_) => Err(FlowFault::Memory),
        Ok(text) => {
            writer.write_all(&text)?;
            end_after(count, is_longer)
        }
    }
}

/// Packs a stream: writes to `writer` the text that [`pack`](capn_pack::pack) returns for the complete words of
/// `reader`. Chunks of at most 65,536 bytes are read. Before each read, the settled prefix of the text has been
/// written. (Page: packing; the rest is our own.)
///
/// Text is settled if no later word can change it. If the last group is a run of zero words or of raw words that may
/// continue, the text before that group is settled. Otherwise all text is settled. Up to 255 words at the end are held
/// back too, if each has at most one zero byte. In all, fewer than 4,096 bytes of input are not packed before a read.
///
/// At most 2^64 - 1 bytes of the stream are packed. One more byte may be read, to find out whether the stream is
/// longer. `Io` is returned if and only if the reader or the writer failed. `Memory` is returned if an allocation was
/// refused, and only after at least one byte of input. `InputTooLong` is returned if the stream has more than 2^64 - 1
/// bytes. `NotWhole`, with the number of bytes, is returned if that number is no multiple of eight. Before
/// `InputTooLong` and `NotWhole` the text of all complete words was written. Before `Memory` and `Io` a prefix of that
/// text was written. The run holds at most two copies of a chunk, of its text and of its words: less than 2 MiB.
pub fn pack_stream<R: Read, W: Write, A: Allocator + Copy>(
    alloc: A,
    reader: &mut Watched<R>,
    writer: &mut Watched<W>,
) -> Result<(), FlowFault>
    requires reader_fine { has_failed reader.old ≡ false }
    requires writer_fine { has_failed writer.old ≡ false }
    ensures { Runs packing (R.remaining (inner_of reader.old)) (R.remaining (inner_of reader.new))
        (W.contents (inner_of writer.old)) (W.contents (inner_of writer.new)) (has_failed reader.new)
        (has_failed writer.new) result }
{
    let mut held = Vec::new(alloc);
    let mut buffer = [0; CHUNK as usize];
    let mut taken = 0;
    'chunks: loop {
        let left = u64::MAX - taken;
        let room = left.min(CHUNK - 1) + 1;
        match reader.read(&mut buffer[..room as usize]) {
            Err(_) => return Err(FlowFault::Io),
            Ok(0) => return pack_last(alloc, &held, taken, false, writer),
            Ok(count) => {
                let within = left.min(count as u64);
                pack_chunk(alloc, &mut held, &buffer[..within as usize], writer)?;
                taken += within;
                if within < count as u64 {
                    return pack_last(alloc, &held, taken, true, writer);
                }
            }
        }
    }
}
