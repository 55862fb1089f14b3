//! Canonical bytes as a frame of one segment.

ghost use Rattle.std.specs.Prelude.{◌≡◌, ◌^◌, ◌<◌, length, false};
ghost use Rattle.capn_words.specs.Watched.{inner_of, has_failed};
ghost use Rattle.capn_serve.specs.Outgoing.{outgoing};
ghost use Rattle.capn_archive.specs.CanonicalFrame.{AddsText, framed, head};

use capn_serve::{ServeFault, add_bytes};
use capn_words::Watched;
use std::alloc::Allocator;
use std::io::Write;

/// Returns the segment table of a frame with one segment of `words` words.
#[tactic(auto, unfolding(capn_stream::specs::Frames::entry))]
fn head_of(words: u32) -> [u8; 8]
    ensures { result ≡ head words }
{
    let [a, b, c, d] = words.to_le_bytes();
    [0, 0, 0, 0, a, b, c, d]
}

/// Adds the frame of one segment with the contents `bytes` to the output. Long contents are not copied.
pub(crate) fn add_frame<W: Write, A: Allocator>(
    bytes: &[u8],
    text: &mut Vec<u8, A>,
    writer: &mut Watched<W>,
) -> Result<(), ServeFault>
    requires short { length bytes.now < 2 ^ 34 }
    requires fine { has_failed writer.old ≡ false }
    ensures { AddsText (framed bytes.now) (outgoing (W.contents (inner_of writer.old)) text.old.items)
        (outgoing (W.contents (inner_of writer.new)) text.new.items) (has_failed writer.new) result }
{
    let head = head_of((bytes.len() / 8) as u32);
    add_bytes(&head, text, writer)?;
    add_bytes(bytes, text, writer)
}
