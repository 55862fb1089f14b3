//! The number of bytes that an unfinished frame needs.

ghost use Rattle.std.specs.Prelude.{◌≡◌, ◌+◌, ◌*◌, ◌≤◌};
ghost use Rattle.capn_words.specs.Message.{most_message_words};
ghost use Rattle.capn_stream.specs.StreamPieces.{IsUnfinished};
ghost use Rattle.capn_c.specs.FrameNeed.{needed};

use capn_stream::table::{entry_at, head_of, total_of};

/// Returns a lower bound for the length in bytes of every complete frame that begins with the incomplete frame `bytes`.
/// A message has at most `most` words. If the segment table in `bytes` is complete, the bound is the exact length.
pub fn needed_of(bytes: &[u8], most: u32) -> u64
    requires small { most ≤ most_message_words }
    requires unfinished { IsUnfinished bytes.now most }
    ensures { result ≡ needed bytes.now }
{
    if bytes.len() < 4 {
        return 8;
    }
    let segments = entry_at(bytes, 0) as usize + 1;
    let head = head_of(segments);
    if bytes.len() < head {
        return head as u64;
    }
    head as u64 + 8 * total_of(&bytes[4..], segments)
}
