//! The trait `Asked`, a message on which one task can be run, and whose reads are counted.
//!
//! A call that gets an [`Asked`] can run only one task on the message, since the `Asked` is moved. The task, a
//! [`CountedTask`] or a [`CountedWriter`], gets the message as a value whose reads are counted, and reads at most as
//! often as the message allows. A call can have the condition `requires work { M.allows message n }`. The body of the
//! call is then proved for every message that allows `n` reads, including messages that allow no more. So the condition
//! bounds the call's work. A reference to a `Space` allows any number of reads, so callers have nothing to prove.

ghost use Rattle.std.specs.Prelude.{◌≡◌, ℕ, ◌+◌, ◌<◌, ◌≤◌, List};

use crate::reader::{CountedSpace, Reads, count_reads};
use capn_words::Space;
use std::marker::Brand;
use std::sync::ledger::{Blank, Ledger};

/// A task on a message whose reads are counted.
pub trait CountedTask {
    /// The type of the task's result.
    type Told;

    /// The relation between a message and the result of the task on that message.
    ghost tells: { Self → List (List ℕ) → Self.Told → Type 0 };

    /// The greatest number of reads and turns of loops that the task counts, for any message.
    ghost most: { Self → ℕ };

    /// Runs the task on the message `space`, and counts the reads in `reads`.
    fn run<S: Space, L: Ledger>(
        self,
        space: &CountedSpace<'_, S, L>,
        reads: &mut Reads<L>,
    ) -> Self::Told
        ensures told { tells self space.now result }
        ensures work { reads.new ≤ reads.old + most self };
}

/// A task on a message whose reads are counted, and on a buffer.
pub trait CountedWriter {
    /// The type of the task's result.
    type Told;

    /// The type of the buffer's items.
    type Item;

    /// The relation between a message, the buffer before and after the task, and the result of the task.
    ghost tells: { Self → List (List ℕ) → List Self.Item → List Self.Item → Self.Told → Type 0 };

    /// The greatest number of reads and turns of loops that the task counts, for any message.
    ghost most: { Self → ℕ };

    /// Runs the task on the message `space` and the buffer `out`, and counts the reads in `reads`.
    fn run<S: Space, L: Ledger>(
        self,
        space: &CountedSpace<'_, S, L>,
        out: &mut [Self::Item],
        reads: &mut Reads<L>,
    ) -> Self::Told
        ensures told { tells self space.now out.old out.new result }
        ensures work { reads.new ≤ reads.old + most self };
}

/// A message on which one task can be run.
pub trait Asked {
    /// The segments of the message, each as the list of its words.
    ghost message: { Self → List (List ℕ) };

    /// The condition that the given number of reads is allowed.
    ghost allows: { Self → ℕ → Type 0 };

    /// Runs `task` with a new count. The message has to allow one read more than the `most` of `task`, since the count
    /// begins with one read of the number of segments.
    fn ask<T: CountedTask>(self, task: T) -> T::Told
        requires { allows self (T.most task + 1) }
        ensures { T.tells task (message self) result };

    /// Runs `task` on the buffer `out` with a new count. The message has to allow one read more than the `most` of
    /// `task`, since the count begins with one read of the number of segments.
    fn ask_into<T: CountedWriter>(self, task: T, out: &mut [T::Item]) -> T::Told
        requires { allows self (T.most task + 1) }
        ensures { T.tells task (message self) out.old out.new result };
}

impl<'s, S: Space> Asked for &'s S {
    ghost use Rattle.std.specs.Prelude.{⊤};

    ghost message = { λ s. S.message s.now };

    ghost allows = { λ _ _. ⊤ };

    #[inline(always)]
    fn ask<T: CountedTask>(self, task: T) -> T::Told {
        run_counted(self, task)
    }

    #[inline(always)]
    fn ask_into<T: CountedWriter>(self, task: T, out: &mut [T::Item]) -> T::Told {
        write_counted(self, task, out)
    }
}

/// Runs `task` on the message `space` with a new count.
#[inline(always)]
fn run_counted<S: Space, T: CountedTask>(space: &S, task: T) -> T::Told
    ensures { T.tells task (S.message space.now) result }
{
    run_with_ledger::<S, T, Brand>(space, task, Blank::new(1))
}

/// Runs `task` on the message `space` with a count in the new ledger `blank`.
#[inline(always)]
fn run_with_ledger<S: Space, T: CountedTask, L: Ledger>(space: &S, task: T, blank: Blank) -> T::Told
    requires name { blank.name ≡ L.name }
    requires parts { blank.parts ≡ L.parts }
    requires one { 0 < blank.parts }
    ensures { T.tells task (S.message space.now) result }
{
    let (space, mut reads) = count_reads::<S, L>(space, blank);
    task.run(&space, &mut reads)
}

/// Runs `task` on the message `space` and the buffer `out` with a new count.
#[inline(always)]
fn write_counted<S: Space, T: CountedWriter>(space: &S, task: T, out: &mut [T::Item]) -> T::Told
    ensures { T.tells task (S.message space.now) out.old out.new result }
{
    write_with_ledger::<S, T, Brand>(space, task, out, Blank::new(1))
}

/// Runs `task` on the message `space` and the buffer `out` with a count in the new ledger `blank`.
#[inline(always)]
fn write_with_ledger<S: Space, T: CountedWriter, L: Ledger>(
    space: &S,
    task: T,
    out: &mut [T::Item],
    blank: Blank,
) -> T::Told
    requires name { blank.name ≡ L.name }
    requires parts { blank.parts ≡ L.parts }
    requires one { 0 < blank.parts }
    ensures { T.tells task (S.message space.now) out.old out.new result }
{
    let (space, mut reads) = count_reads::<S, L>(space, blank);
    task.run(&space, out, &mut reads)
}
