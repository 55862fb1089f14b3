//! Writes the text of a run to its writer.

ghost use Rattle.std.specs.Prelude.{◌≡◌, false};
ghost use Rattle.capn_words.specs.Watched.{inner_of, has_failed};
ghost use Rattle.capn_serve.specs.Outgoing.{Flushes, SendsRest, outgoing};

use crate::fault::{RunFault, ServeFault};
use capn_words::Watched;
use std::alloc::Allocator;
use std::io::Write;

/// The least number of bytes of a text that is written at once. A shorter text may be written later.
pub(crate) const ENOUGH: usize = 65_536;

/// Writes and clears `text`, if `text` has at least 65,536 bytes.
///
/// A service that appends the output of a message to `text` calls this function at the end of that output. No memory is
/// allocated. If the writer fails, a prefix of `text` was written, and `Io` is returned.
#[inline(always)]
pub fn flush_long<W: Write, A: Allocator>(
    text: &mut Vec<u8, A>,
    writer: &mut Watched<W>,
) -> Result<(), ServeFault>
    requires { has_failed writer.old ≡ false }
    ensures { Flushes (outgoing (W.contents (inner_of writer.old)) text.old.items)
        (outgoing (W.contents (inner_of writer.new)) text.new.items) (has_failed writer.new) result }
{
    if text.len() < ENOUGH {
        return Ok(());
    }
    flush(text, writer)
}

/// Writes and clears `text`. If the writer fails, a prefix of `text` was written, and `Io` is returned. This function
/// is not inlined, so that the loops over messages stay short.
#[inline(never)]
fn flush<W: Write, A: Allocator>(
    text: &mut Vec<u8, A>,
    writer: &mut Watched<W>,
) -> Result<(), ServeFault>
    requires { has_failed writer.old ≡ false }
    ensures { Flushes (outgoing (W.contents (inner_of writer.old)) text.old.items)
        (outgoing (W.contents (inner_of writer.new)) text.new.items) (has_failed writer.new) result }
{
    writer.write_all(text)?;
    text.clear();
    Ok(())
}

/// Writes `text`, unless the writer has failed before. Returns `served`, or `Io` if the writer fails now.
pub(crate) fn send_rest<W: Write>(
    served: Result<(), RunFault>,
    text: &[u8],
    writer: &mut Watched<W>,
) -> Result<(), RunFault>
    ensures { SendsRest served text.now (W.contents (inner_of writer.old)) (W.contents (inner_of writer.new))
        (has_failed writer.old)
        (has_failed writer.new) result }
{
    if writer.failed() {
        return served;
    }
    writer.write_all(text)?;
    served
}
