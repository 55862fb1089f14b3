//! The output of a text. The text is stored until it is long enough, and is then written at once.

ghost use Rattle.std.specs.Prelude.{◌≡◌, [], ◌||◌, is_err, IfErr, OnOk};
ghost use Rattle.std.specs.Io.KnownBytes.{Appends};
ghost use Rattle.capn_words.specs.Watched.{HasBegun, inner_of, has_failed};
ghost use Rattle.capn_show.specs.declared.fault.Broken.TheVariants as broken;
ghost use Rattle.capn_show.specs.Outgoing.{Adds, BreaksOff, outgoing};

use crate::fault::Broken;
use capn_words::Watched;
use std::alloc::Allocator;
use std::io::Write;

/// The length in bytes at which the stored text is written.
const BLOCK: usize = 65536;

/// Writes `text` to `writer`, and then empties `text`.
#[inline(never)]
fn send<W: Write, A: Allocator>(
    text: &mut Vec<u8, A>,
    writer: &mut Watched<W>,
) -> Result<(), Broken>
    ensures sent { OnOk result
        (Appends (W.contents (inner_of writer.old)) (W.contents (inner_of writer.new)) text.old.items) }
    ensures begun { HasBegun (W.contents (inner_of writer.old)) (W.contents (inner_of writer.new)) text.old.items }
    ensures refused { IfErr result (λ e. e ≡ broken.Io) }
    ensures empty { OnOk result (text.new.items ≡ []) }
    ensures failed { has_failed writer.new ≡ (has_failed writer.old || is_err result) }
{
    match writer.write_all(text.as_slice()) {
        Ok(()) => {
            text.clear();
            Ok(())
        }
        Err(_) => Err(Broken::Io),
    }
}

/// Writes `text` to `writer` and empties `text`, if `text` has reached `BLOCK` bytes.
#[inline]
fn settle<W: Write, A: Allocator>(
    text: &mut Vec<u8, A>,
    writer: &mut Watched<W>,
) -> Result<(), Broken>
    ensures shown { OnOk result (Adds (outgoing W.contents writer.old text.old.items)
        (outgoing W.contents writer.new text.new.items) []) }
    ensures cut { IfErr result (λ e. BreaksOff (outgoing W.contents writer.old text.old.items)
        (outgoing W.contents writer.new text.new.items) e []) }
{
    if text.len() < BLOCK {
        return Ok(());
    }
    send(text, writer)
}

/// Appends `bytes` to `text`. If `text` then has `BLOCK` bytes or more, it is written to `writer` and emptied.
#[inline]
pub fn put<W: Write, A: Allocator>(
    text: &mut Vec<u8, A>,
    writer: &mut Watched<W>,
    bytes: &[u8],
) -> Result<(), Broken>
    ensures shown { OnOk result (Adds (outgoing W.contents writer.old text.old.items)
        (outgoing W.contents writer.new text.new.items) bytes.now) }
    ensures cut { IfErr result (λ e. BreaksOff (outgoing W.contents writer.old text.old.items)
        (outgoing W.contents writer.new text.new.items) e bytes.now) }
{
    match text.extend_from_slice(bytes) {
        Ok(()) => settle(text, writer),
        Err(_) => Err(Broken::Memory),
    }
}
