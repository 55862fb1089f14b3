//! The fault of a run that skips refused messages, with its text and its exit status.

ghost use Rattle.std.specs.Prelude.{◌≡◌};
ghost use Rattle.capn_words.specs.Watched.{inner_of, has_failed};
ghost use Rattle.capn_serve.specs.Line.{Says, way};
ghost use Rattle.capn_serve.specs.SkipFault as spec;
ghost use Rattle.capn_serve.specs.SkipFault.{text_after_skipped};

use crate::fault::RunFault;
use crate::position::Position;
use crate::skipped::{Skipped, SkippedSoFar, say_skipped, skipped_of};
use crate::{Ending, Line};
use capn_canon::Refusal;
use capn_words::Watched;
use std::io::Write;

/// The reason why a run that skips refused messages does not end with `Ok`. A message that is refused and explained is
/// skipped too.
#[derive(Clone, Copy, Debug, PartialEq, Eq)]
pub enum SkipFault {
    /// The run ended with this fault. If the fault refuses a frame or packed bytes, no message was skipped before.
    Ended(RunFault),
    /// All of the input was served, except for messages that were skipped.
    Skipped(Skipped),
    /// The frame or the packed bytes at this position are refused. The first field counts the messages that were
    /// skipped before this position.
    RefusedAfterSkipped(Skipped, Position, Refusal),
}

/// Returns the fault of an input that `refusal` refuses at the position `at`. If some of the `messages` messages before
/// `at` were skipped, the fault counts the skipped ones.
fn after_skipped(
    skipped: Option<SkippedSoFar>,
    messages: u64,
    at: Position,
    refusal: Refusal,
) -> SkipFault
    ensures { result ≡ spec.after_skipped skipped messages at refusal }
{
    match skipped {
        Some(skipped) => {
            SkipFault::RefusedAfterSkipped(skipped_of(skipped, messages), at, refusal)
        }
        None => SkipFault::Ended(RunFault::Refused(at, refusal)),
    }
}

/// Returns the fault of a run that `refusal` ended at the position `at`. If a frame or packed bytes are refused, the
/// fault also counts the messages that were skipped before `at`.
fn refused_after(
    skipped: Option<SkippedSoFar>,
    messages: u64,
    at: Position,
    refusal: Refusal,
) -> SkipFault
    ensures { result ≡ spec.refused_after skipped messages at refusal }
{
    match refusal {
        Refusal::Packed(_) | Refusal::Frame(_) => after_skipped(skipped, messages, at, refusal),
        Refusal::Bare(_) | Refusal::Trailing(_) | Refusal::Walk(_) => {
            SkipFault::Ended(RunFault::Refused(at, refusal))
        }
        Refusal::Capability(_) | Refusal::Memory => {
            SkipFault::Ended(RunFault::Refused(at, refusal))
        }
    }
}

/// Maps the fault of a loop over messages to the fault of a run that skips refused messages. The loop served or skipped
/// `messages` messages, and `skipped` counts the skipped ones.
pub fn skip_fault_after(skipped: Option<SkippedSoFar>, messages: u64, fault: RunFault) -> SkipFault
    ensures { result ≡ spec.fault_after skipped messages fault }
{
    match fault {
        RunFault::Refused(at, refusal) => refused_after(skipped, messages, at, refusal),
        RunFault::Memory | RunFault::Io | RunFault::InputTooLong => SkipFault::Ended(fault),
    }
}

/// Returns the outcome of a run that read all of its input. The input had `messages` messages, and `skipped` counts the
/// skipped ones.
pub fn skip_outcome(skipped: Option<SkippedSoFar>, messages: u64) -> Result<(), SkipFault>
    ensures { result ≡ spec.outcome_by skipped messages }
{
    match skipped {
        Some(skipped) => Err(SkipFault::Skipped(skipped_of(skipped, messages))),
        None => Ok(()),
    }
}

/// Says how many messages were `skipped`, and then, on a line of its own, the `fault` that ended the run.
fn say_after_skipped<E: Write>(
    skipped: &Skipped,
    fault: &RunFault,
    line: &mut Line,
    errors: &mut Watched<E>,
)
    ensures { Says (text_after_skipped skipped.now fault.now)
        (way line.old (E.contents (inner_of errors.old)) (has_failed errors.old))
        (way line.new (E.contents (inner_of errors.new)) (has_failed errors.new)) }
{
    say_skipped(skipped, line, errors);
    line.put(b"\ncapn: ", errors);
    fault.say(line, errors);
}

impl Ending for SkipFault {
    ghost use Rattle.capn_serve.specs.SkipFault.{skip_text, status_of};

    ghost text = { skip_text };

    ghost exit = { status_of };

    fn say<E: Write>(&self, line: &mut Line, errors: &mut Watched<E>) {
        match self {
            SkipFault::Ended(fault) => fault.say(line, errors),
            SkipFault::Skipped(skipped) => say_skipped(skipped, line, errors),
            SkipFault::RefusedAfterSkipped(skipped, at, refusal) => {
                say_after_skipped(skipped, &RunFault::Refused(*at, *refusal), line, errors)
            }
        }
    }

    fn exit_status(&self) -> u8 {
        match self {
            SkipFault::Ended(fault) => fault.exit_status(),
            SkipFault::Skipped(_) | SkipFault::RefusedAfterSkipped(_, _, _) => 1,
        }
    }
}
