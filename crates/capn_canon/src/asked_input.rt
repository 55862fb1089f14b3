//! The trait `AskedInput`, bytes that are read as a message once, for one task whose reads are counted.
//!
//! A call that gets an [`AskedInput`] can run only one task on it, since it is moved. The task, an [`InputTask`], gets
//! the message as an [`Asked`], which it can read only through a counter. A call can have the condition
//! `requires work { B.allows bytes n }`. The body of the call is then proved for all bytes whose message allows `n`
//! reads, including a message that allows no more. So the condition bounds how often the call reads the message. A
//! slice allows any number of reads, so callers have nothing to prove.
//!
//! The steps from the bytes to the message are not counted: unpacking, and finding the segments.

ghost use Rattle.std.specs.Prelude.{ℕ, List, Result};
ghost use Rattle.capn_walk.specs.Limits.{Bounds};
ghost use Rattle.capn_canon.specs.Answered.{IsRun};
ghost use Rattle.capn_canon.specs.declared.form.Form.TheVariants as forms;
ghost use Rattle.capn_canon.specs.declared.refusal.Refusal.{Refusal as Refusals};

use crate::form::Form;
use crate::input::{MessageTask, run_task};
use crate::refusal::Refusal;
use capn_target::counted::Asked;
use capn_walk::Limits;
use capn_words::{Bare, Space};
use std::alloc::Allocator;
use std::marker::Model;

/// A task on a message that is read from bytes. The task can ask the message only once. (Our own.)
pub trait InputTask {
    /// The type of the task's answer.
    type Answer;

    /// The relation between the task before the run, the message, the limits, the result, and the task after the run.
    ghost answers: { Self → List (List ℕ) → Bounds → Result Self.Answer Refusals → Self → Type 0 };

    /// The number of reads that the message has to allow, within the given limits.
    ghost most: { Bounds → ℕ };

    /// Does the task on `message` within `limits`. Returns the answer, or the refusal.
    fn run_asked<M: Asked>(&mut self, message: M, limits: Limits) -> Result<Self::Answer, Refusal>
        requires { M.allows message (most limits) }
        ensures { answers self.old (M.message message) limits result self.new };
}

/// Bytes that are read as a message, on which one task can be run. (Our own.)
pub trait AskedInput {
    /// The bytes, as numbers below 256.
    ghost bytes: { Self → List ℕ };

    /// The condition that the message allows the given number of reads.
    ghost allows: { Self → ℕ → Type 0 };

    /// Reads the bytes in `form` as a message, once, and runs `task` on the message, within `limits`. Returns the
    /// result, and the task after the run. If the reading fails, the task is not run. Reading takes memory from
    /// `alloc` as [`run_task`] does.
    fn ask_message<T: InputTask, A: Allocator + Copy>(
        self,
        alloc: A,
        task: T,
        form: Form,
        limits: Limits,
    ) -> (Result<T::Answer, Refusal>, T)
        requires { allows self (T.most limits) }
        ensures { IsRun form (bytes self) limits T.answers task result.0 result.1 };

    /// Reads the bytes as bare words, and runs `task` on the message, within `limits`. Returns the result, and the task
    /// after the run. There is no allocator, so no memory is allocated.
    fn ask_bare<T: InputTask>(self, task: T, limits: Limits) -> (Result<T::Answer, Refusal>, T)
        requires { allows self (T.most limits) }
        ensures { IsRun forms.Bare (bytes self) limits T.answers task result.0 result.1 };
}

impl<'b> AskedInput for &'b [u8] {
    ghost use Rattle.std.specs.Prelude.{⊤};

    ghost bytes = { λ b. b.now };

    ghost allows = { λ _ _. ⊤ };

    #[inline(always)]
    fn ask_message<T: InputTask, A: Allocator + Copy>(
        self,
        alloc: A,
        task: T,
        form: Form,
        limits: Limits,
    ) -> (Result<T::Answer, Refusal>, T) {
        let mut asking = Asking { task };
        let answer = run_task(alloc, &mut asking, form, self, limits);
        let Asking { task } = asking;
        (answer, task)
    }

    #[inline(always)]
    fn ask_bare<T: InputTask>(
        self,
        mut task: T,
        limits: Limits,
    ) -> (Result<T::Answer, Refusal>, T) {
        let answer = run_bare(self, &mut task, limits);
        (answer, task)
    }
}

/// An `InputTask` as a `MessageTask`. Contracts see the task itself.
struct Asking<T: InputTask> {
    task: T,
}

impl<T: InputTask> Model for Asking<T> {
    ghost Value = { T };

    ghost view = { λ a. a.task };
}

impl<T: InputTask, A: Allocator + Copy> MessageTask<A> for Asking<T> {
    type Answer = T::Answer;

    ghost answers = { λ task m limits r after. T.answers task m limits r after };

    #[inline(always)]
    fn run<S: Space>(
        &mut self,
        _alloc: A,
        message: &S,
        limits: Limits,
    ) -> Result<T::Answer, Refusal> {
        self.task.run_asked(message, limits)
    }
}

/// Reads `bytes` as bare words, and runs `task` on the message.
#[inline(always)]
fn run_bare<T: InputTask>(bytes: &[u8], task: &mut T, limits: Limits) -> Result<T::Answer, Refusal>
    ensures { IsRun forms.Bare bytes.now limits T.answers task.old result task.new }
{
    let message = Bare::new(bytes)?;
    task.run_asked(&message, limits)
}
