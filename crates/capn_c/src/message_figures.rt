//! The task that finds the figures of a message, and its runs on bytes in any form and on segments.

ghost use Rattle.std.specs.Prelude.{◌+◌, ◌*◌};
ghost use Rattle.capn_words.specs.Message.{most_segments};
ghost use Rattle.capn_canon.specs.MemoryNeed.{MayNeedMemory};
ghost use Rattle.capn_canon.specs.Refusal.{IsUnaccepted, IsUnacceptedIn};
ghost use Rattle.capn_stream.specs.Segments.{message_of};
ghost use Rattle.capn_c.specs.Figures.{AreFigures, FiguresIn};
ghost use Rattle.capn_c.specs.Held.{FiguresHeld, IsUnacceptedHeld};
ghost use Rattle.capn_c.specs.inner.Told.{AreFiguresTold};

use crate::figures::{CapnFigures, figures_of};
use crate::held_message::run_held;
use capn_canon::{AskedInput, Form, InputTask, MessageTask, Refusal};
use capn_target::counted::Asked;
use capn_walk::Limits;
use capn_words::Space;
use std::alloc::Global;

/// The task of `figures_in` and `figures_held`: finds the figures of the message that was read.
#[derive(Clone, Copy)]
struct Measure;

impl MessageTask<Global> for Measure {
    type Answer = CapnFigures;

    ghost answers = { λ _ m lim r _. AreFiguresTold (AreFigures m lim) (IsUnaccepted m lim) ⊥ lim.budget r };

    #[inline(always)]
    fn run<S: Space>(
        &mut self,
        _alloc: Global,
        message: &S,
        limits: Limits,
    ) -> Result<CapnFigures, Refusal> {
        figures_of(message, limits)
    }
}

impl InputTask for Measure {
    type Answer = CapnFigures;

    ghost use Rattle.std.specs.Prelude.{◌+◌, ◌*◌};
    ghost use Rattle.capn_words.specs.Message.{most_segments};

    ghost answers = { λ _ m lim r _. AreFiguresTold (AreFigures m lim) (IsUnaccepted m lim) ⊥ lim.budget r };

    ghost most = { λ limits. 24 * (limits.budget + 1) + 2 * most_segments + 3 + 1 };

    #[inline(always)]
    fn run_asked<M: Asked>(&mut self, message: M, limits: Limits) -> Result<CapnFigures, Refusal> {
        figures_of(message, limits)
    }
}

/// Returns the figures of the message that `bytes` encode in `form`, within `limits`. Bytes that are no message, and a
/// message that is not accepted, are refused.
///
/// The bytes are unpacked or unframed at most once, and the message is walked as by [`figures_of`]. Memory is allocated
/// on `alloc` only for a packed text, and for a frame of more than 64 segments. The clause `work` bounds how often the
/// message is read. The steps that find the message in the bytes are not counted.
#[inline(always)]
pub fn figures_in<B: AskedInput>(
    alloc: Global,
    form: Form,
    bytes: B,
    limits: Limits,
) -> Result<CapnFigures, Refusal>
    requires work { B.allows bytes (24 * (limits.budget + 1) + 2 * most_segments + 3 + 1) }
    ensures { AreFiguresTold (FiguresIn form (B.bytes bytes) limits) (IsUnacceptedIn form (B.bytes bytes) limits)
        (MayNeedMemory form (B.bytes bytes) limits) limits.budget result }
{
    let (answer, _task) = bytes.ask_message(alloc, Measure, form, limits);
    answer
}

/// Returns the figures of the message that is held in `segments`, within `limits`. Segments that are no message, and a
/// message that is not accepted, are refused. No memory is allocated.
pub fn figures_held(
    alloc: Global,
    segments: &[&[[u8; 8]]],
    limits: Limits,
) -> Result<CapnFigures, Refusal>
    ensures { AreFiguresTold (FiguresHeld (message_of segments.now) limits)
        (IsUnacceptedHeld (message_of segments.now) limits) ⊥ limits.budget result }
{
    run_held(alloc, &mut Measure, segments, limits)
}
