//! Runs over the messages of a stream, packed or not.

ghost use Rattle.std.specs.Prelude.{◌≡◌, false};
ghost use Rattle.capn_words.specs.Watched.{inner_of, has_failed};
ghost use Rattle.capn_commands.specs.CommandRun.{Runs};
ghost use Rattle.capn_commands.specs.declared.plan.Plan.TheVariants as plans;

use crate::fault::ToolFault;
use crate::message_texts::first_run;
use crate::plan::MessageText;
use capn_serve::{MOST_INPUT, run_packed, run_stream};
use capn_walk::Limits;
use capn_words::Watched;
use std::alloc::Allocator;
use std::io::{Read, Write};

/// Writes the text of the kind `piece` for each message of a stream. Before each read, all messages that are complete
/// have been served.
pub fn run_each<R: Read, W: Write, A: Allocator + Copy>(
    alloc: A,
    piece: MessageText,
    limits: Limits,
    reader: &mut Watched<R>,
    writer: &mut Watched<W>,
) -> Result<(), ToolFault>
    requires reader_fine { has_failed reader.old ≡ false }
    requires writer_fine { has_failed writer.old ≡ false }
    ensures { Runs (plans.Each piece limits) (R.remaining (inner_of reader.old)) (R.remaining (inner_of reader.new))
        (W.contents (inner_of writer.old)) (W.contents (inner_of writer.new)) (has_failed reader.new)
        (has_failed writer.new) result }
{
    let mut run = first_run(piece, limits);
    let most = limits.message_words();
    run_stream(alloc, most, MOST_INPUT as u64, &mut run, reader, writer)?;
    Ok(())
}

/// Writes the text of the kind `piece` for each message of a packed stream. Before each read, all messages that are
/// complete have been served.
pub fn run_each_packed<R: Read, W: Write, A: Allocator + Copy>(
    alloc: A,
    piece: MessageText,
    limits: Limits,
    reader: &mut Watched<R>,
    writer: &mut Watched<W>,
) -> Result<(), ToolFault>
    requires reader_fine { has_failed reader.old ≡ false }
    requires writer_fine { has_failed writer.old ≡ false }
    ensures { Runs (plans.Packed piece limits) (R.remaining (inner_of reader.old)) (R.remaining (inner_of reader.new))
        (W.contents (inner_of writer.old)) (W.contents (inner_of writer.new)) (has_failed reader.new)
        (has_failed writer.new) result }
{
    let mut run = first_run(piece, limits);
    let most = limits.message_words();
    // 2^32 packed bytes unpack to fewer than `u64::MAX` bytes, so no unpacked words are left out.
    run_packed(
        alloc,
        most,
        MOST_INPUT as u64,
        u64::MAX,
        &mut run,
        reader,
        writer,
    )?;
    Ok(())
}
