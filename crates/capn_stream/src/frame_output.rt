//! The call `write_message`, which writes the frame of a message to a writer and takes no memory.

ghost use Rattle.std.specs.Prelude.{◌≡◌, ◌↔◌, ◌+◌, ◌-◌, ◌*◌, ◌<◌, ◌≤◌, ◌++◌, length, take, true, false, OnOk, IsErr};
ghost use Rattle.std.specs.Io.KnownBytes.{Appends};
ghost use Rattle.capn_words.specs.Watched.{HasBegun, has_failed, inner_of};
ghost use Rattle.capn_stream.specs.Frames.{entry, frame_text};
ghost use Rattle.capn_stream.specs.inner.FrameOutput.{head_text};

use crate::fault::Io;
use crate::frame_bytes::bytes_of;
use crate::table::MOST_TABLE_WORDS;
use capn_words::{Space, Watched};
use std::io::Write;

/// The greatest number of segments for which the table is put together in the small buffer.
const FEW_SEGMENTS: u32 = 62;

const SMALL_HEAD: usize = 256;

const MOST_HEAD: usize = 8 * MOST_TABLE_WORDS as usize;

/// Copies `bytes` into `head`, from offset `at` on.
fn put(head: &mut [u8], at: usize, bytes: &[u8])
    requires { at + length bytes.now ≤ length head.old }
    ensures front { take at head.new ≡ take at head.old }
    ensures joined { take (at + length bytes.now) head.new ≡ take at head.old ++ bytes.now }
{
    let end = at + bytes.len();
    head[at..end].copy_from_slice(bytes);
}

#[tactic(auto, unfolding(crate::specs::Frames::entry))]
fn put_entry(head: &mut [u8], at: usize, number: u32)
    requires { at + 4 ≤ length head.old }
    ensures { take (at + 4) head.new ≡ take at head.old ++ entry number }
{
    put(head, at, &number.to_le_bytes());
}

/// Writes the table of the message `space`, and padding of zeros, to the front of `head`. Returns the number of bytes
/// written.
fn put_head<S: Space>(head: &mut [u8], space: &S) -> usize
    requires { 8 + 4 * length (S.message space.now) ≤ length head.old }
    ensures inside { result ≤ length head.old }
    ensures text { take result head.new ≡ head_text (S.message space.now) }
{
    let segments = space.segments();
    put_entry(head, 0, segments - 1);
    let mut at = 4;
    for segment in 0..segments {
        put_entry(head, at, space.words(segment).unwrap_or(0));
        at += 4;
    }
    if segments % 2 == 0 {
        put(head, at, &[0; 4]);
        at += 4;
    }
    at
}

/// Writes the table of the message `space` and its padding to `writer`. Both are put together in `head`, which is long
/// enough for them.
fn write_head<W: Write, S: Space>(
    writer: &mut Watched<W>,
    space: &S,
    head: &mut [u8],
) -> Result<(), Io>
    requires fine { has_failed writer.old ≡ false }
    requires room { 8 + 4 * length (S.message space.now) ≤ length head.old }
    ensures ok { OnOk result (Appends (W.contents (inner_of writer.old)) (W.contents (inner_of writer.new))
        (head_text (S.message space.now))) }
    ensures begun { HasBegun (W.contents (inner_of writer.old)) (W.contents (inner_of writer.new))
        (head_text (S.message space.now)) }
    ensures io { IsErr result ↔ (has_failed writer.new ≡ true) }
{
    let len = put_head(head, space);
    writer.write_all(&head[..len])?;
    Ok(())
}

/// Writes the table of the message `space` and its padding to `writer`. Most tables are short, and a small buffer is
/// faster to fill with zeros.
fn write_table<W: Write, S: Space>(writer: &mut Watched<W>, space: &S) -> Result<(), Io>
    requires { has_failed writer.old ≡ false }
    ensures ok { OnOk result (Appends (W.contents (inner_of writer.old)) (W.contents (inner_of writer.new))
        (head_text (S.message space.now))) }
    ensures begun { HasBegun (W.contents (inner_of writer.old)) (W.contents (inner_of writer.new))
        (head_text (S.message space.now)) }
    ensures io { IsErr result ↔ (has_failed writer.new ≡ true) }
{
    if space.segments() <= FEW_SEGMENTS {
        write_head(writer, space, &mut [0; SMALL_HEAD])
    } else {
        write_head(writer, space, &mut [0; MOST_HEAD])
    }
}

/// Writes the frame of the message `space` to `writer`: its table, padding of zeros, and its contents.
///
/// Returns `Io` exactly if the writer fails. In that case a prefix of the frame was written. Takes no memory.
pub fn write_message<W: Write, S: Space>(writer: &mut Watched<W>, space: &S) -> Result<(), Io>
    requires { has_failed writer.old ≡ false }
    ensures ok { OnOk result (Appends (W.contents (inner_of writer.old)) (W.contents (inner_of writer.new))
        (frame_text (S.message space.now))) }
    ensures begun { HasBegun (W.contents (inner_of writer.old)) (W.contents (inner_of writer.new))
        (frame_text (S.message space.now)) }
    ensures io { IsErr result ↔ (has_failed writer.new ≡ true) }
{
    write_table(writer, space)?;
    for segment in 0..space.segments() {
        if let Some(words) = space.words(segment) {
            writer.write_all(bytes_of(space, segment, words))?;
        }
    }
    Ok(())
}
