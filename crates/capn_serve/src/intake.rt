//! The loop that reads a stream in chunks for a service: [`serve_pieces`]. The trait [`Intake`] describes the state
//! that takes these chunks. `make`, `pack --streaming`, `unpack --streaming` and the functions that read a complete
//! input at once have loops of their own.
//!
//! An intake serves each message once the last byte of that message is read. The ghost member [`Intake::takes`] states
//! what an intake holds after some bytes, and [`Intake::gives`] states how a run over some bytes ends. The clauses of
//! [`serve_pieces`] use both members to state the effect of a run.

ghost use Rattle.std.specs.Prelude.{◌≡◌, ◌≤◌, ℕ, Bool, false, List, length, Option, Result};
ghost use Rattle.capn_words.specs.Message.{most_message_words};
ghost use Rattle.capn_words.specs.Watched.{inner_of, has_failed};
ghost use Rattle.capn_serve.specs.declared.fault.RunFault.{RunFault};
ghost use Rattle.capn_serve.specs.Fold.{Fold, fold_until};
ghost use Rattle.capn_serve.specs.inner.IntakeRun.{CanFeed, EndsAfter, FeedsAfter, HasSome, IsNew, Reads};

use crate::chunk::CHUNK;
use crate::fault::RunFault;
use crate::service::{Run, Service};
use capn_words::Watched;
use std::alloc::Allocator;
use std::io::{Read, Write};

/// The state of a run that gets its input in chunks, and serves each message once that message is complete.
pub(crate) trait Intake<A: Allocator + Copy> {
    /// States the effect of some bytes on an intake and on the state of a fold. The arguments are the fold with the
    /// type of its states, the intake and the state before the bytes, the intake and the state after the bytes, the
    /// bytes, and the writer's content before and after the bytes.
    ghost takes: { (X : Type 0) → Fold X → Self → X → Self → X → List ℕ → Option (List ℕ) → Option (List ℕ)
        → Type 0 };

    /// States how a run ends for a fold. The arguments are the fold with the type of its states, the intake and the
    /// state before the run, the intake and the state after the run, the bytes that were served, whether the input has
    /// more bytes, the writer's content before and after the run, and the result of the run.
    ghost gives: { (X : Type 0) → Fold X → Self → X → Self → X → List ℕ → Bool → Option (List ℕ) → Option (List ℕ)
        → Result (Unit {0}) RunFault → Type 0 };

    /// Serves each message that is complete after `piece`, until the service is finished. The texts of these messages
    /// are collected in `text`, and written to `writer`.
    fn serve<S: Service, W: Write>(
        &mut self,
        alloc: A,
        most: u32,
        run: &mut Run<S>,
        piece: &[u8],
        text: &mut Vec<u8, A>,
        writer: &mut Watched<W>,
    ) -> Result<(), RunFault>
        requires ready { CanFeed (fold_until S.serves S.refuses S.done most)
            (takes _ (fold_until S.serves S.refuses S.done most)) self.old run.old (length piece.now)
            (W.contents (inner_of writer.old)) (has_failed writer.old) }
        ensures { FeedsAfter (takes _ (fold_until S.serves S.refuses S.done most))
            (gives _ (fold_until S.serves S.refuses S.done most)) (λ y. S.done y.service y.at) self.old run.old
            piece.now (W.contents (inner_of writer.old)) (W.contents (inner_of writer.new)) (has_failed writer.new)
            result self.new run.new };

    /// Ends `run` at the end of the input, with a fault if a message or a packed group is cut off. The intake keeps the
    /// bytes that it holds.
    fn finish<S: Service>(&mut self, run: &Run<S>) -> Result<(), RunFault>
        requires going { S.done run.now.service run.now.at ≡ false }
        requires taken { (most : ℕ) × (d : Option (List ℕ))
            × HasSome (takes _ (fold_until S.serves S.refuses S.done most)) self.old run.now 0 d }
        ensures { (most : ℕ) → EndsAfter (takes _ (fold_until S.serves S.refuses S.done most))
            (gives _ (fold_until S.serves S.refuses S.done most)) self.old run.now result self.new };
}

/// Reads an input in chunks of at most 65,536 bytes, and lets `intake` serve each chunk before the next chunk is read.
/// The loop ends if the service is finished, if the input ends, or at the first fault. At most `limit` bytes are
/// served. One more byte may be read, to find out whether the input is longer.
pub(crate) fn serve_pieces<I: Intake<A>, S: Service, R: Read, W: Write, A: Allocator + Copy>(
    alloc: A,
    most: u32,
    limit: u64,
    run: &mut Run<S>,
    intake: &mut I,
    reader: &mut Watched<R>,
    writer: &mut Watched<W>,
) -> Result<(), RunFault>
    requires small { most ≤ most_message_words }
    requires new { IsNew (I.takes _ (fold_until S.serves S.refuses S.done most) intake.old run.old)
        (I.gives _ (fold_until S.serves S.refuses S.done most) intake.old run.old) (λ y. S.done y.service y.at)
        intake.old run.old (W.contents (inner_of writer.old)) }
    requires reader_fine { has_failed reader.old ≡ false }
    requires writer_fine { has_failed writer.old ≡ false }
    ensures { Reads (I.takes _ (fold_until S.serves S.refuses S.done most) intake.old run.old)
        (I.gives _ (fold_until S.serves S.refuses S.done most) intake.old run.old) (λ y. S.done y.service y.at) limit
        intake.new run.new (R.remaining (inner_of reader.old)) (R.remaining (inner_of reader.new))
        (W.contents (inner_of writer.old)) (W.contents (inner_of writer.new)) (has_failed reader.new)
        (has_failed writer.new) result }
{
    if run.is_done() {
        return Ok(());
    }
    let mut text = Vec::new(alloc);
    let mut buffer = [0; CHUNK as usize];
    let mut taken = 0;
    'pieces: loop {
        let left = limit - taken;
        let room = left.min(CHUNK - 1) + 1;
        match reader.read(&mut buffer[..room as usize]) {
            Err(_) => return Err(RunFault::Io),
            Ok(0) => return intake.finish(run),
            Ok(count) => {
                let within = left.min(count as u64);
                let piece = &buffer[..within as usize];
                intake.serve(alloc, most, run, piece, &mut text, writer)?;
                if run.is_done() {
                    return Ok(());
                }
                if within < count as u64 {
                    return Err(RunFault::InputTooLong);
                }
                taken += within;
            }
        }
    }
}
