//! The call `frame`, which returns the bytes of a message's frame.

ghost use Rattle.std.specs.Prelude.{◌≡◌, ℕ, ◌+◌, ◌-◌, ◌≤◌, ◌++◌, length, replicate, Some, IfOk, OnOk};
ghost use Rattle.std.specs.List.{flat_map};
ghost use Rattle.capn_words.specs.Message.{bytes, segment_at, total, words_of};
ghost use Rattle.capn_stream.specs.Frames.{Frames, StandsFirst, segment_bytes, entry, frame_text, padding, table};

use crate::table::head_of;
use capn_words::{Memory, Place, Space, total_words};
use std::alloc::{AllocError, Allocator};

#[tactic(auto, unfolding(crate::specs::Frames::entry))]
fn put_entry<A: Allocator>(text: &mut Vec<u8, A>, number: u32) -> Result<(), AllocError>
    ensures { OnOk result (text.new.items ≡ text.old.items ++ entry number) }
{
    text.extend_from_slice(&number.to_le_bytes())?;
    Ok(())
}

/// Appends the table of the message `space` to `text`.
fn put_table<S: Space, A: Allocator>(text: &mut Vec<u8, A>, space: &S) -> Result<(), AllocError>
    ensures { OnOk result (text.new.items ≡ text.old.items ++ table (S.message space.now)) }
{
    let segments = space.segments();
    put_entry(text, segments - 1)?;
    for segment in 0..segments {
        if let Some(words) = space.words(segment) {
            put_entry(text, words)?;
        }
    }
    Ok(())
}

fn put_padding<A: Allocator>(text: &mut Vec<u8, A>, segments: u32) -> Result<(), AllocError>
    ensures { OnOk result (text.new.items ≡ text.old.items ++ replicate (padding segments) 0) }
{
    if segments % 2 == 0 {
        text.extend_from_slice(&[0; 4])?;
    }
    Ok(())
}

/// Returns the bytes of `segment`, which has `words` words, of the message `space`.
pub(crate) fn bytes_of<S: Space>(space: &S, segment: u32, words: u32) -> &[u8]
    requires { words_of (S.message space.now) segment ≡ Some words }
    ensures { result.now ≡ bytes (segment_at (S.message space.now) segment) }
{
    space.bytes(Place { segment, word: 0 }, 8 * words as usize)
}

/// Appends the bytes of the segments of the message `space` to `text`.
fn put_contents<S: Space, A: Allocator>(text: &mut Vec<u8, A>, space: &S) -> Result<(), AllocError>
    ensures { OnOk result (text.new.items ≡ text.old.items ++ segment_bytes (S.message space.now)) }
{
    for segment in 0..space.segments() {
        if let Some(words) = space.words(segment) {
            text.extend_from_slice(bytes_of(space, segment, words))?;
        }
    }
    Ok(())
}

/// Returns the frame of the message `space`: its table, padding of zeros, and its contents.
///
/// From the result, [`first`](crate::first) returns the message, unless `max_words` is too small or an allocation is
/// refused. Memory is taken from `alloc` once, for exactly the frame. `Memory` is returned only if that allocation was
/// refused. (Page: serialization over a stream. Zeros as padding are our own.)
pub fn frame<S: Space, A: Allocator + Copy>(alloc: A, space: &S) -> Result<Vec<u8, A>, Memory>
    ensures exact { IfOk result (λ text. text.items ≡ frame_text (S.message space.now)) }
    ensures frames { IfOk result (λ text. Frames text.items (S.message space.now)) }
    ensures again { (most : ℕ) → total (S.message space.now) ≤ most
        → IfOk result (λ text. StandsFirst text.items most (S.message space.now) (length text.items)) }
{
    let segments = space.segments();
    let head = head_of(segments as usize);
    let mut text = Vec::with_capacity(alloc, head + 8 * total_words(space) as usize)?;
    put_table(&mut text, space)?;
    put_padding(&mut text, segments)?;
    put_contents(&mut text, space)?;
    Ok(text)
}
