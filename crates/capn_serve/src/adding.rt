//! Adds bytes to the output of a run. Short bytes are appended to a text that is written later, and long bytes are
//! written at once.

ghost use Rattle.std.specs.Prelude.{◌≡◌, false};
ghost use Rattle.capn_words.specs.Watched.{inner_of, has_failed};
ghost use Rattle.capn_serve.specs.Outgoing.{AddsBytes, Sends, outgoing};

use crate::fault::ServeFault;
use crate::output::ENOUGH;
use capn_words::Watched;
use std::alloc::Allocator;
use std::io::Write;

/// Writes `text` to `writer`, clears `text`, and then writes `bytes`.
fn send_bytes<W: Write, A: Allocator>(
    bytes: &[u8],
    text: &mut Vec<u8, A>,
    writer: &mut Watched<W>,
) -> Result<(), ServeFault>
    requires { has_failed writer.old ≡ false }
    ensures { Sends bytes.now (outgoing (W.contents (inner_of writer.old)) text.old.items)
        (outgoing (W.contents (inner_of writer.new)) text.new.items) (has_failed writer.new) result }
{
    writer.write_all(text)?;
    text.clear();
    Ok(writer.write_all(bytes)?)
}

/// Adds `bytes` to the output of a message. Short bytes are appended to `text`. Long bytes are written to `writer`,
/// after `text`.
///
/// `bytes` are short if `text` and `bytes` together have fewer than 65,536 bytes. Long bytes take no memory, and once
/// they are written, `text` is empty. `Memory` is returned if memory for short bytes is refused, and then nothing is
/// added. `Io` is returned if the writer fails. Then a prefix of `text` and `bytes`, joined, was written.
pub fn add_bytes<W: Write, A: Allocator>(
    bytes: &[u8],
    text: &mut Vec<u8, A>,
    writer: &mut Watched<W>,
) -> Result<(), ServeFault>
    requires { has_failed writer.old ≡ false }
    ensures { AddsBytes bytes.now (outgoing (W.contents (inner_of writer.old)) text.old.items)
        (outgoing (W.contents (inner_of writer.new)) text.new.items) (has_failed writer.new) result }
{
    if ENOUGH <= text.len() + bytes.len() {
        return send_bytes(bytes, text, writer);
    }
    Ok(text.extend_from_slice(bytes)?)
}
