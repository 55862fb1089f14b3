//! The run of `show` or `hash` over a bare input, which is one message.

ghost use Rattle.std.specs.Prelude.{◌≡◌, ◌≢◌, false};
ghost use Rattle.capn_words.specs.Watched.{inner_of, has_failed};
ghost use Rattle.capn_commands.specs.CommandRun.{Runs};
ghost use Rattle.capn_commands.specs.declared.plan.MessageText.TheVariants as kinds;
ghost use Rattle.capn_commands.specs.declared.plan.Plan.TheVariants as plans;
ghost use Rattle.capn_commands.specs.declared.plan.Whole.TheVariants as wholes;

use crate::fault::ToolFault;
use crate::message_texts::first_run;
use crate::plan::MessageText;
use capn_serve::run_bare;
use capn_walk::Limits;
use capn_words::Watched;
use std::alloc::Allocator;
use std::io::{Read, Write};

/// Writes the text or the digest of a bare input, which is one message. `piece` must not be `Price`: `make_verdict`
/// makes the price line of a bare message, because that line also says whether the bytes are canonical. The run holds
/// no more than the input and what the service holds.
pub fn run_one<R: Read, W: Write, A: Allocator + Copy>(
    alloc: A,
    piece: MessageText,
    limits: Limits,
    reader: &mut Watched<R>,
    writer: &mut Watched<W>,
) -> Result<(), ToolFault>
    requires unpriced { piece ≢ kinds.Price }
    requires reader_fine { has_failed reader.old ≡ false }
    requires writer_fine { has_failed writer.old ≡ false }
    ensures { Runs (plans.Whole (wholes.Bare piece limits)) (R.remaining (inner_of reader.old))
        (R.remaining (inner_of reader.new))
        (W.contents (inner_of writer.old)) (W.contents (inner_of writer.new)) (has_failed reader.new)
        (has_failed writer.new) result }
{
    let mut run = first_run(piece, limits);
    run_bare(alloc, &mut run, reader, writer)?;
    Ok(())
}
