//! The call `run_task`, which reads bytes in any form as a message and runs a task on it.

ghost use Rattle.std.specs.Prelude.{◌≡◌, ◌<◌, ◌≤◌, ℕ, List, Result, None, [], ◌∷◌, length};
ghost use Rattle.std.specs.Prelude.{IfOk, OnOk, IfErr, IfSome};
ghost use Rattle.capn_walk.specs.Limits.{Bounds};
ghost use Rattle.capn_canon.specs.Answered.{IsRefusedReading, IsRun};
ghost use Rattle.capn_canon.specs.Reads.{Reads};
ghost use Rattle.capn_canon.specs.declared.form.Form.TheVariants as forms;
ghost use Rattle.capn_canon.specs.declared.refusal.Refusal.{Refusal as Refusals};

use crate::form::Form;
use crate::refusal::Refusal;
use capn_pack::unpack;
use capn_stream::{MOST_TABLE_WORDS, first, first_bare};
use capn_walk::Limits;
use capn_words::{Bare, Space};
use std::alloc::Allocator;

/// A task on a message that is read from bytes in one of the three forms. (Our own.)
pub trait MessageTask<A: Allocator + Copy> {
    /// The type of the task's answer.
    type Answer;

    /// The relation between the task before the run, the message, the limits, the result, and the task after the run.
    ghost answers: { Self → List (List ℕ) → Bounds → Result Self.Answer Refusals → Self → Type 0 };

    /// Does the task on `message` within `limits`. Returns the answer, or the refusal.
    fn run<S: Space>(
        &mut self,
        alloc: A,
        message: &S,
        limits: Limits,
    ) -> Result<Self::Answer, Refusal>
        ensures { answers self.old (S.message message.now) limits result self.new };
}

/// Refuses `bytes` by `Trailing` if more bytes follow the frame. The frame is the first `taken` bytes.
fn refuse_trailing(taken: usize, bytes: &[u8]) -> Result<(), Refusal>
    ensures ends { OnOk result (length bytes.now ≤ taken) }
    ensures refused { IfErr result (λ e. (taken < length bytes.now) × (e ≡ Refusals.Trailing taken)) }
{
    if taken < bytes.len() {
        return Err(Refusal::Trailing(taken as u64));
    }
    Ok(())
}

/// Reads `bytes` in `form` as a message of one segment. `form` is not `Packed`. Returns `None` if the bytes begin with
/// no frame within the limit, or with a frame of several segments.
fn one_segment<'b>(form: Form, bytes: &'b [u8], limits: Limits) -> Result<Option<Bare<'b>>, Refusal>
    requires plain { form ≡ forms.Packed → ⊥ }
    ensures read { IfOk result (λ o. IfSome o (λ w. Reads form bytes.now limits.message_words (w ∷ []))) }
    ensures frame { IfOk result (λ o. o ≡ None → form ≡ forms.Stream) }
    ensures refused { IfErr result (λ e. IsRefusedReading form bytes.now limits e) }
{
    if let Form::Bare = form {
        return Ok(Some(Bare::new(bytes)?));
    }
    let Some((message, taken)) = first_bare(bytes, limits.message_words()) else {
        return Ok(None);
    };
    refuse_trailing(taken, bytes)?;
    Ok(Some(message))
}

/// Reads the frame `bytes`, of any number of segments, and does the `task` on its message.
#[inline(never)]
fn of_frame<T: MessageTask<A>, A: Allocator + Copy>(
    alloc: A,
    task: &mut T,
    bytes: &[u8],
    limits: Limits,
) -> Result<T::Answer, Refusal>
    ensures { IsRun forms.Stream bytes.now limits T.answers task.old result task.new }
{
    let (message, taken) = first(alloc, bytes, limits.message_words())?;
    refuse_trailing(taken, bytes)?;
    task.run(alloc, &message, limits)
}

/// Does the `task` on the message that `bytes` encode in `form`, which is not `Packed`. If the message has one segment,
/// only its words are read, which is faster. For messages of one segment, the code has only one call of the task, so
/// that the compiler inlines the call.
#[inline(always)]
fn of_plain<T: MessageTask<A>, A: Allocator + Copy>(
    alloc: A,
    task: &mut T,
    form: Form,
    bytes: &[u8],
    limits: Limits,
) -> Result<T::Answer, Refusal>
    requires plain { form ≡ forms.Packed → ⊥ }
    ensures { IsRun form bytes.now limits T.answers task.old result task.new }
{
    match one_segment(form, bytes, limits)? {
        Some(message) => task.run(alloc, &message, limits),
        None => of_frame(alloc, task, bytes, limits),
    }
}

/// Unpacks the packed text `bytes` to a frame, and does the `task` on the message in the frame.
#[inline(never)]
fn of_packed<T: MessageTask<A>, A: Allocator + Copy>(
    alloc: A,
    task: &mut T,
    bytes: &[u8],
    limits: Limits,
) -> Result<T::Answer, Refusal>
    ensures { IsRun forms.Packed bytes.now limits T.answers task.old result task.new }
{
    let text = unpack(alloc, bytes, limits.message_words() + MOST_TABLE_WORDS)?;
    of_plain(alloc, task, Form::Stream, text.as_slice(), limits)
}

/// Reads `bytes` in `form` as a message, once, and returns the answer of `task` for the message, within `limits`.
///
/// If the reading fails, for a fault of the bytes or with `Memory`, the task is not run, and `task` stays as it was.
/// All other refusals come from the task. Reading takes memory from `alloc` only to store the segments' ends, if there
/// are more than 64 segments, and the unpacked words. (Our own.)
#[inline(always)]
pub fn run_task<T: MessageTask<A>, A: Allocator + Copy>(
    alloc: A,
    task: &mut T,
    form: Form,
    bytes: &[u8],
    limits: Limits,
) -> Result<T::Answer, Refusal>
    ensures { IsRun form bytes.now limits T.answers task.old result task.new }
{
    match form {
        Form::Packed => of_packed(alloc, task, bytes, limits),
        Form::Stream | Form::Bare => of_plain(alloc, task, form, bytes, limits),
    }
}
