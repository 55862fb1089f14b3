//! The step of a run for one message.

ghost use Rattle.std.specs.Prelude.{◌≡◌, ℕ, length, false};
ghost use Rattle.capn_words.specs.Watched.{inner_of, has_failed};
ghost use Rattle.capn_serve.specs.Fold.{fold_until};
ghost use Rattle.capn_serve.specs.Outgoing.{outgoing};
ghost use Rattle.capn_serve.specs.ChunkRun.{AddsMessage, HasRoom};

use crate::fault::{RunFault, ServeFault};
use crate::position::Position;
use crate::service::{Run, Service};
use capn_words::{Space, Watched};
use std::alloc::Allocator;
use std::io::Write;

/// Serves `message`, whose bytes are `frame`, and moves the run to the position of the next message. A refusal is
/// returned with the position of the refused message.
#[inline(always)]
pub(crate) fn add_message<M: Space, S: Service, W: Write, A: Allocator + Copy>(
    alloc: A,
    run: &mut Run<S>,
    frame: &[u8],
    message: &M,
    text: &mut Vec<u8, A>,
    writer: &mut Watched<W>,
) -> Result<(), RunFault>
    requires fine { has_failed writer.old ≡ false }
    requires room { HasRoom run.old.at (length frame.now) }
    ensures { (most : ℕ) → AddsMessage (fold_until S.serves S.refuses S.done most) run.old frame.now
        (M.message message.now)
        (outgoing (W.contents (inner_of writer.old)) text.old.items)
        (outgoing (W.contents (inner_of writer.new)) text.new.items) (has_failed writer.new) result run.new }
{
    match run
        .service
        .serve(alloc, run.at, frame, message, text, writer)
    {
        Ok(()) => {
            run.at = Position {
                index: run.at.index + 1,
                offset: run.at.offset + frame.len() as u64,
            };
            Ok(())
        }
        Err(ServeFault::Memory) => Err(RunFault::Memory),
        Err(ServeFault::Io) => Err(RunFault::Io),
        Err(ServeFault::Refused(refusal)) => Err(RunFault::Refused(run.at, refusal)),
    }
}
