//! The run over the messages of an input from the first message to the result: [`run_messages`], for any service that
//! says how its runs end.

ghost use Rattle.std.specs.Prelude.{◌≡◌, ℕ, List, Result, false};
ghost use Rattle.capn_words.specs.Watched.{inner_of, has_failed};
ghost use Rattle.capn_canon.specs.declared.refusal.Refusal.{Refusal};
ghost use Rattle.capn_serve.specs.Finish.{Ends, PutsLast, PutsText, answer, finish_of, last_text};
ghost use Rattle.capn_serve.specs.Fold.{fold_until};
ghost use Rattle.capn_serve.specs.StreamRun.{first_run};
ghost use Rattle.capn_serve.specs.WhatCame.{Came};
ghost use Rattle.capn_serve.specs.declared.fault.RunFault.{RunFault};
ghost use Rattle.capn_serve.specs.declared.position.Position.{Position};
ghost use Rattle.capn_serve.specs.inner.Last.{IsFineIfLast};

use crate::begun::Begun;
use crate::fault::RunFault;
use crate::form_run::serve_form_with;
use crate::position::Position;
use crate::service::{Run, Service};
use capn_canon::{Form, Limits, Refusal};
use capn_words::Watched;
use std::alloc::Allocator;
use std::io::{Read, Write};

/// A service that says how its runs end: the text after the messages, the result, and the fault.
pub trait Finish: Service {
    /// The result of a run that no fault ended.
    type Found;

    /// The reason why a run ends without a result.
    type Fault;

    /// The text after the last message. The arguments are the last state, and the position after the last message.
    ghost closing: { Self → Position → List ℕ };

    /// The text about a refusal that ended the loop over the messages. The arguments are the last state, the position
    /// of the refused message, the refusal, and the bytes of that message that were read and kept.
    ghost told: { Self → Position → Refusal → Came → List ℕ };

    /// The result of a run whose loop over the messages ended without a fault. The arguments are the last state, and
    /// the position after the last message.
    ghost outcome: { Self → Position → Result Self.Found Self.Fault };

    /// The fault of a run after a fault ended the loop over the messages, or the writing of the text after them. The
    /// arguments are the last state, the position of the next message, and that fault.
    ghost stops: { Self → Position → RunFault → Self.Fault };

    /// Writes the text after the last message. `at` is the position after that message. `Memory` is returned if an
    /// allocation was refused, before anything was written, and `Io` if the writer failed.
    fn write_closing<W: Write, A: Allocator + Copy>(
        &self,
        alloc: A,
        at: Position,
        writer: &mut Watched<W>,
    ) -> Result<(), RunFault>
        requires fine { has_failed writer.old ≡ false }
        ensures { PutsText (closing self.now at) (W.contents (inner_of writer.old)) (W.contents (inner_of writer.new))
            (has_failed writer.new) result };

    /// Writes the text about the `refusal` that ended the loop over the messages. `at` is the position of the refused
    /// message, and `begun` has the bytes of that message that were read and kept. The faults are those of
    /// [`write_closing`](Finish::write_closing).
    fn write_told<W: Write, A: Allocator + Copy>(
        &self,
        alloc: A,
        at: Position,
        refusal: &Refusal,
        begun: &Begun<A>,
        writer: &mut Watched<W>,
    ) -> Result<(), RunFault>
        requires fine { has_failed writer.old ≡ false }
        ensures { PutsText (told self.now at refusal.now begun.now) (W.contents (inner_of writer.old))
            (W.contents (inner_of writer.new)) (has_failed writer.new) result };

    /// Returns the result of a run whose loop over the messages ended without a fault. `at` is the position after the
    /// last message.
    fn outcome(&self, at: Position) -> Result<Self::Found, Self::Fault>
        ensures { result ≡ outcome self.now at };

    /// Returns the fault of a run after the fault `stopped` ended the loop over the messages, or the writing of the
    /// text after them. `at` is the position of the next message.
    fn stops(&self, at: Position, stopped: RunFault) -> Self::Fault
        ensures { result ≡ stops self.now at stopped };
}

/// Writes the text that follows the messages of `run`, whose loop ended with `served`. After `Memory`, `Io` and
/// `InputTooLong` nothing is written.
fn write_last<S: Finish, W: Write, A: Allocator + Copy>(
    alloc: A,
    run: &Run<S>,
    served: Result<(), RunFault>,
    begun: &Begun<A>,
    writer: &mut Watched<W>,
) -> Result<(), RunFault>
    requires { IsFineIfLast served (has_failed writer.old) }
    ensures { PutsLast served (last_text (finish_of S.closing S.told S.outcome S.stops) served run.now begun.now)
        (W.contents (inner_of writer.old)) (W.contents (inner_of writer.new)) (has_failed writer.old)
        (has_failed writer.new) result }
{
    match served {
        Ok(()) => run.service.write_closing(alloc, run.at, writer),
        Err(fault) => match fault {
            RunFault::Refused(at, refusal) => {
                run.service.write_told(alloc, at, &refusal, begun, writer)
            }
            RunFault::Memory | RunFault::Io | RunFault::InputTooLong => Ok(()),
        },
    }
}

/// Returns the result of `run`, whose loop ended with `served`. `put` is the result of writing the text that follows
/// the messages.
fn answer_of<S: Finish>(
    run: &Run<S>,
    served: Result<(), RunFault>,
    put: Result<(), RunFault>,
) -> Result<S::Found, S::Fault>
    ensures { result ≡ answer (finish_of S.closing S.told S.outcome S.stops) served put run.now }
{
    match put {
        Ok(()) => match served {
            Ok(()) => run.service.outcome(run.at),
            Err(fault) => Err(run.service.stops(run.at, fault)),
        },
        Err(fault) => Err(run.service.stops(run.at, fault)),
    }
}

/// Runs `service` over the messages of an input in `form`, within `limits`, and returns the result of the run.
///
/// The messages are served by [`serve_form_with`]. After the last message the closing text of the service is written.
/// If a refusal ends the loop over the messages, the text of the service about that refusal is written instead. A fault
/// in writing this text ends the run in place of the refusal. Of `limits` only the greatest number of words of a
/// message is used: the service has limits of its own.
pub fn run_messages<S: Finish + Drop, R: Read, W: Write, A: Allocator + Copy>(
    alloc: A,
    form: Form,
    limits: Limits,
    service: S,
    reader: &mut Watched<R>,
    writer: &mut Watched<W>,
) -> Result<S::Found, S::Fault>
    requires reader_fine { has_failed reader.old ≡ false }
    requires writer_fine { has_failed writer.old ≡ false }
    ensures { Ends (fold_until S.serves S.refuses S.done limits.message_words) (first_run service)
        (finish_of S.closing S.told S.outcome S.stops) form (R.remaining (inner_of reader.old))
        (R.remaining (inner_of reader.new)) (W.contents (inner_of writer.old)) (W.contents (inner_of writer.new))
        (has_failed reader.new) (has_failed writer.new) result }
{
    let most = limits.message_words();
    let mut run = Run::new(service);
    let mut begun = Begun::new(alloc);
    let served = serve_form_with(alloc, form, most, &mut run, &mut begun, reader, writer);
    let put = write_last(alloc, &run, served, &begun, writer);
    answer_of(&run, served, put)
}
