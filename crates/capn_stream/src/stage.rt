//! The stages of a frame that is received in pieces, and the call `fill`, which appends the next piece to the frame.

ghost use Rattle.std.specs.Prelude.{◌≡◌, ℕ, ◌+◌, ◌-◌, ◌*◌, ◌<◌, ◌≤◌, ◌++◌, length, drop, IfOk, IfErr, IsErrOf, OnErr};
ghost use Rattle.std.specs.Prelude.{vec_capacity};
ghost use Rattle.capn_words.specs.Message.{AreBytes, most_segments, most_message_words};
ghost use Rattle.capn_stream.specs.FrameRefusal.{HasCount, announced_segments, head_length};
ghost use Rattle.capn_stream.specs.inner.Stages as spec;
ghost use Rattle.capn_stream.specs.StreamPieces.{KeepsHead};
ghost use Rattle.capn_stream.specs.inner.Stages.{Extends, Fills, FitsStage, IsStage, IsHeadRefused, Rests, Tabled};
ghost use Rattle.capn_stream.specs.declared.fault.FrameFault.TheVariants as faults;

use crate::fault::FrameFault;
use crate::table::{ends_of, entry_at, head_of, total_of};
use capn_words::MOST_SEGMENTS;
use std::alloc::{AllocError, Allocator, Global};

/// The part of a frame that is being received.
#[derive(Clone, Copy, Debug)]
pub(crate) enum Stage {
    /// The count of segments.
    Count,
    /// The table and its padding, for the given number of segments.
    Table(usize),
    /// The contents, with the offsets in the frame at which they begin and end.
    Contents(usize, usize),
}

/// Returns the length in bytes of the frame up to the end of the part that `stage` receives.
#[inline]
fn end_of(stage: Stage) -> usize
    requires { FitsStage stage }
    ensures { result ≡ spec.need stage }
{
    match stage {
        Stage::Count => 4,
        Stage::Table(segments) => head_of(segments),
        Stage::Contents(_, end) => end,
    }
}

/// Returns the number of bytes from the end of `bytes` to the end of the part that `stage` receives.
pub(crate) fn part_left(stage: Stage, bytes: &[u8]) -> usize
    requires fits { FitsStage stage }
    requires within { length bytes.now ≤ spec.need stage }
    ensures { result ≡ spec.need stage - length bytes.now }
{
    end_of(stage) - bytes.len()
}

/// The number of bytes that are reserved with the first bytes of a frame, so that a small frame allocates once.
const FIRST_ROOM: usize = 64;

/// Reserves [`FIRST_ROOM`] bytes if `bytes` is empty and `count` is above 0. Otherwise does nothing, and each later
/// growth of `bytes` is left to the vector.
#[inline]
fn make_room<A: Allocator>(bytes: &mut Vec<u8, A>, count: usize) -> Result<(), AllocError>
    ensures same { bytes.new.items ≡ bytes.old.items }
    ensures kept { 0 < length bytes.old.items → vec_capacity bytes.new ≡ vec_capacity bytes.old }
    ensures memory { OnErr result (0 < count) }
{
    if bytes.is_empty() && count > 0 {
        bytes.reserve(FIRST_ROOM)?;
    }
    Ok(())
}

/// Appends bytes of `piece` to `bytes` until there are `end` bytes or `piece` ends. Returns the number of bytes
/// appended.
#[inline]
fn fill_to<A: Allocator>(
    bytes: &mut Vec<u8, A>,
    piece: &[u8],
    end: usize,
) -> Result<usize, AllocError>
    requires within { length bytes.old.items ≤ end }
    requires below { AreBytes bytes.old.items }
    ensures extends { IfOk result (λ n. Extends bytes.old.items piece.now end n bytes.new.items) }
    ensures memory { OnErr result ((0 < length piece.now) × (length bytes.old.items < end)) }
{
    let count = (end - bytes.len()).min(piece.len());
    make_room(bytes, count)?;
    bytes.extend_from_slice(&piece[..count])?;
    Ok(count)
}

/// Returns the number of segments that `bytes`, the count of a frame, announces, or `TooManySegments` above 4,096.
fn read_count(bytes: &[u8]) -> Result<usize, FrameFault>
    requires { length bytes.now ≡ 4 }
    ensures counted { IfOk result (λ n. HasCount bytes.now × (n ≡ announced_segments bytes.now)) }
    ensures refused { IfErr result (λ e. (e ≡ faults.TooManySegments (announced_segments bytes.now))
        × (most_segments < announced_segments bytes.now)) }
{
    let count = entry_at(bytes, 0) as u64 + 1;
    if count > MOST_SEGMENTS as u64 {
        return Err(FrameFault::TooManySegments(count));
    }
    Ok(count as usize)
}

/// The result of reading a table: the offsets in the frame at which the contents begin and end, and the ends of the
/// segments.
#[derive(Drop)]
struct Bounds<A: Allocator = Global> {
    start: usize,
    end: usize,
    ends: Vec<u32, A>,
}

/// Reads `bytes`, the table of `segments` segments, which may announce at most `most` words.
fn read_table<A: Allocator>(
    alloc: A,
    bytes: &[u8],
    segments: usize,
    most: u32,
) -> Result<Bounds<A>, FrameFault>
    requires small { most ≤ most_message_words }
    requires count { HasCount bytes.now × (segments ≡ announced_segments bytes.now) }
    requires here { length bytes.now ≡ head_length segments }
    ensures tabled { IfOk result (λ b. Tabled bytes.now most b.start b.end b.ends.items) }
    ensures refused { IfErr result (λ e. IsHeadRefused bytes.now most e) }
{
    let words = total_of(&bytes[4..], segments);
    if words > most as u64 {
        return Err(FrameFault::TooManyWords(words));
    }
    let ends = ends_of(alloc, &bytes[4..], segments - 1, 0)?;
    let start = head_of(segments);
    Ok(Bounds {
        start,
        end: start + 8 * words as usize,
        ends,
    })
}

/// Appends bytes of `piece` to the frame `bytes` until the frame is complete or `piece` ends. Returns the number of
/// bytes appended. Updates `stage` and `ends`. The message may have at most `most` words.
pub(crate) fn fill<A: Allocator + Copy>(
    alloc: A,
    bytes: &mut Vec<u8, A>,
    ends: &mut Vec<u32, A>,
    stage: &mut Stage,
    piece: &[u8],
    most: u32,
) -> Result<usize, FrameFault>
    requires small { most ≤ most_message_words }
    requires is { IsStage stage.old bytes.old.items most ends.old.items }
    requires rests { Rests stage.old bytes.old.items }
    ensures filled { IfOk result
        (λ n. Fills bytes.old.items piece.now most n bytes.new.items stage.new ends.new.items) }
    ensures refused { IfErr result (λ e. IsHeadRefused (bytes.old.items ++ piece.now) most e) }
    ensures kept { IfErr result (λ e. KeepsHead bytes.old.items piece.now most bytes.new.items e) }
    ensures memory { IsErrOf result FrameFault.Memory
        → (0 < length piece.now) × (length bytes.old.items < spec.need stage.old) }
{
    let mut at = 0;
    'parts: loop {
        let end = end_of(*stage);
        at += fill_to(bytes, &piece[at..], end)?;
        if bytes.len() < end {
            return Ok(at);
        }
        match *stage {
            Stage::Count => {
                let segments = read_count(bytes)?;
                *stage = Stage::Table(segments);
            }
            Stage::Table(segments) => {
                let bounds = read_table(alloc, bytes, segments, most)?;
                *ends = bounds.ends;
                *stage = Stage::Contents(bounds.start, bounds.end);
            }
            Stage::Contents(_, _) => return Ok(at),
        }
    }
}
