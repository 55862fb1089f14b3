//! Tasks on two messages of which the first was surveyed before, where every read of a message is counted.
//!
//! A [`PairTask`](capn_same::PairTask) gets two messages of which nothing is known. A [`BesideTask`] can also require
//! what a survey of the first message has found. The first message is a [`CountedSpace`] that was asked before, and the
//! second message is an [`AskedBeside`]. A call that gets an `AskedBeside` can run only one task on the second message,
//! since the argument is moved. So a clause `requires work { B.allows second n }` bounds how often the call reads the
//! second message. A reference to a `Space` allows any number of reads, so a caller with a reference has nothing to
//! prove.

ghost use Rattle.std.specs.Prelude.{◌≡◌, ℕ, ◌+◌, ◌<◌, ◌≤◌, List};

use capn_target::counted::{CountedSpace, Reads, count_reads};
use capn_words::Space;
use std::marker::Brand;
use std::sync::ledger::{Blank, Ledger};

/// A task on two messages, which reads each message only by calls that count the reads.
pub trait BesideTask {
    /// The type of the result.
    type Told;

    /// The condition that the first message has to meet.
    ghost needs: { Self → List (List ℕ) → Type 0 };

    /// The relation between the two messages and the result of the task.
    ghost tells: { Self → List (List ℕ) → List (List ℕ) → Self.Told → Type 0 };

    /// The greatest number of reads and turns of loops that the task counts for the first message.
    ghost most_first: { Self → ℕ };

    /// The greatest number of reads and turns of loops that the task counts for the second message.
    ghost most_second: { Self → ℕ };

    /// Runs the task on the messages `a` and `b`, and counts the reads in `first` and `second`.
    fn run<S: Space, T: Space, L: Ledger, M: Ledger>(
        self,
        a: &CountedSpace<'_, S, L>,
        b: &CountedSpace<'_, T, M>,
        first: &mut Reads<L>,
        second: &mut Reads<M>,
    ) -> Self::Told
        requires { needs self a.now }
        ensures told { tells self a.now b.now result }
        ensures first { first.new ≤ first.old + most_first self }
        ensures second { second.new ≤ second.old + most_second self };
}

/// A second message, on which one task can be run beside a first message.
pub trait AskedBeside {
    /// The segments of the message, each as the list of its words.
    ghost message: { Self → List (List ℕ) };

    /// The condition that the given number of reads is allowed.
    ghost allows: { Self → ℕ → Type 0 };

    /// Runs `task` on the message `first`, whose reads are counted in `reads`, and on this message with a new count.
    /// This message has to allow one read more than the `most_second` of `task`, since the count begins with one read
    /// of the number of segments.
    fn ask_beside<S: Space, L: Ledger, T: BesideTask>(
        self,
        first: &CountedSpace<'_, S, L>,
        task: T,
        reads: &mut Reads<L>,
    ) -> T::Told
        requires needs { T.needs task first.now }
        requires allows { allows self (T.most_second task + 1) }
        ensures told { T.tells task first.now (message self) result }
        ensures reads { reads.new ≤ reads.old + T.most_first task };
}

impl<'s, U: Space> AskedBeside for &'s U {
    ghost use Rattle.std.specs.Prelude.{⊤};

    ghost message = { λ s. U.message s.now };

    ghost allows = { λ _ _. ⊤ };

    #[inline(always)]
    fn ask_beside<S: Space, L: Ledger, T: BesideTask>(
        self,
        first: &CountedSpace<'_, S, L>,
        task: T,
        reads: &mut Reads<L>,
    ) -> T::Told {
        run_beside(first, self, task, reads)
    }
}

/// Runs `task` on the message `first`, and on the message `space` with a new count.
#[inline(always)]
fn run_beside<S: Space, U: Space, L: Ledger, T: BesideTask>(
    first: &CountedSpace<'_, S, L>,
    space: &U,
    task: T,
    reads: &mut Reads<L>,
) -> T::Told
    requires { T.needs task first.now }
    ensures told { T.tells task first.now (U.message space.now) result }
    ensures reads { reads.new ≤ reads.old + T.most_first task }
{
    beside_with_ledger::<S, U, L, T, Brand>(first, space, task, reads, Blank::new(1))
}

/// Runs `task` on the message `first`, and on the message `space` with a count in the new ledger `blank`.
#[inline(always)]
fn beside_with_ledger<S: Space, U: Space, L: Ledger, T: BesideTask, M: Ledger>(
    first: &CountedSpace<'_, S, L>,
    space: &U,
    task: T,
    reads: &mut Reads<L>,
    blank: Blank,
) -> T::Told
    requires name { blank.name ≡ M.name }
    requires parts { blank.parts ≡ M.parts }
    requires one { 0 < blank.parts }
    requires needs { T.needs task first.now }
    ensures told { T.tells task first.now (U.message space.now) result }
    ensures reads { reads.new ≤ reads.old + T.most_first task }
{
    let (space, mut own) = count_reads::<U, M>(space, blank);
    task.run(first, &space, reads, &mut own)
}
