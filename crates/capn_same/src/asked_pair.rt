//! Tasks on two messages, where every read of a message is counted.
//!
//! [`Asked`](capn_target::counted::Asked) is the corresponding trait for one message. A call that takes an
//! [`AskedFirst`] and an [`AskedSecond`] in place of two `Space`s can do only one task on the two messages, since both
//! arguments are moved. The task, a [`PairTask`], states a bound on its reads, and reads each message only through
//! calls that count the reads. So two clauses `requires first { A.allows a n }` and `requires second { B.allows b n }`
//! bound the work of the call. A reference to a `Space` allows any number, so callers that pass references have nothing
//! to prove.

ghost use Rattle.std.specs.Prelude.{◌≡◌, ℕ, ◌+◌, ◌<◌, ◌≤◌, List};

use capn_target::counted::{CountedSpace, Reads, count_reads};
use capn_words::Space;
use std::marker::Brand;
use std::sync::ledger::{Blank, Ledger};

/// A task on two messages, which reads each message only through calls that count the reads.
pub trait PairTask {
    /// The type of the result.
    type Told;

    /// The statement that a value is a correct result of the task for two given messages.
    ghost tells: { Self → List (List ℕ) → List (List ℕ) → Self.Told → Type 0 };

    /// The greatest number of reads and loop turns that the task counts for each message, for any two messages.
    ghost most: { Self → ℕ };

    /// Does the task on the messages `a` and `b`, whose reads are counted in `first` and `second`.
    fn run<S: Space, T: Space, L: Ledger, M: Ledger>(
        self,
        a: &CountedSpace<'_, S, L>,
        b: &CountedSpace<'_, T, M>,
        first: &mut Reads<L>,
        second: &mut Reads<M>,
    ) -> Self::Told
        ensures told { tells self a.now b.now result }
        ensures first { first.new ≤ first.old + most self }
        ensures second { second.new ≤ second.old + most self };
}

/// The second message of a task on two messages.
pub trait AskedSecond {
    /// The segments of the message, each the list of its words.
    ghost message: { Self → List (List ℕ) };

    /// The statement that the message allows a number of reads.
    ghost allows: { Self → ℕ → Type 0 };

    /// Does `task` on `other`, whose reads are counted in `reads`, and on this message with a new count. Starting the
    /// new count reads the number of segments once. So this message has to allow one read more than the task makes.
    fn ask_beside<S: Space, L: Ledger, T: PairTask>(
        self,
        other: &CountedSpace<'_, S, L>,
        task: T,
        reads: &mut Reads<L>,
    ) -> T::Told
        requires { allows self (T.most task + 1) }
        ensures told { T.tells task other.now (message self) result }
        ensures reads { reads.new ≤ reads.old + T.most task };
}

/// The first message of a task on two messages.
pub trait AskedFirst {
    /// The segments of the message, each the list of its words.
    ghost message: { Self → List (List ℕ) };

    /// The statement that the message allows a number of reads.
    ghost allows: { Self → ℕ → Type 0 };

    /// Does `task` on this message and on `other`, each with a new count. Starting a count reads the number of segments
    /// once.
    fn ask_pair<B: AskedSecond, T: PairTask>(self, other: B, task: T) -> T::Told
        requires first { allows self (T.most task + 1) }
        requires second { B.allows other (T.most task + 1) }
        ensures { T.tells task (message self) (B.message other) result };
}

impl<'s, S: Space> AskedSecond for &'s S {
    ghost use Rattle.std.specs.Prelude.{⊤};

    ghost message = { λ s. S.message s.now };

    ghost allows = { λ _ _. ⊤ };

    #[inline(always)]
    fn ask_beside<U: Space, L: Ledger, T: PairTask>(
        self,
        other: &CountedSpace<'_, U, L>,
        task: T,
        reads: &mut Reads<L>,
    ) -> T::Told {
        run_beside(other, self, task, reads)
    }
}

impl<'s, S: Space> AskedFirst for &'s S {
    ghost use Rattle.std.specs.Prelude.{⊤};

    ghost message = { λ s. S.message s.now };

    ghost allows = { λ _ _. ⊤ };

    #[inline(always)]
    fn ask_pair<B: AskedSecond, T: PairTask>(self, other: B, task: T) -> T::Told {
        run_pair(self, other, task)
    }
}

/// Does `task` on the message `other`, and on the message `space` with a new count.
#[inline(always)]
fn run_beside<S: Space, U: Space, L: Ledger, T: PairTask>(
    other: &CountedSpace<'_, U, L>,
    space: &S,
    task: T,
    reads: &mut Reads<L>,
) -> T::Told
    ensures told { T.tells task other.now (S.message space.now) result }
    ensures reads { reads.new ≤ reads.old + T.most task }
{
    beside_with_ledger::<S, U, L, T, Brand>(other, space, task, reads, Blank::new(1))
}

/// Does `task` on the message `other`, and on the message `space` with a count in the new ledger `blank`.
#[inline(always)]
fn beside_with_ledger<S: Space, U: Space, L: Ledger, T: PairTask, M: Ledger>(
    other: &CountedSpace<'_, U, L>,
    space: &S,
    task: T,
    reads: &mut Reads<L>,
    blank: Blank,
) -> T::Told
    requires name { blank.name ≡ M.name }
    requires parts { blank.parts ≡ M.parts }
    requires one { 0 < blank.parts }
    ensures told { T.tells task other.now (S.message space.now) result }
    ensures reads { reads.new ≤ reads.old + T.most task }
{
    let (space, mut own) = count_reads::<S, M>(space, blank);
    task.run(other, &space, reads, &mut own)
}

/// Does `task` on the message `space` with a new count, and on `other`.
#[inline(always)]
fn run_pair<S: Space, B: AskedSecond, T: PairTask>(space: &S, other: B, task: T) -> T::Told
    requires { B.allows other (T.most task + 1) }
    ensures { T.tells task (S.message space.now) (B.message other) result }
{
    pair_with_ledger::<S, B, T, Brand>(space, other, task, Blank::new(1))
}

/// Does `task` on the message `space` with a count in the new ledger `blank`, and on `other`.
#[inline(always)]
fn pair_with_ledger<S: Space, B: AskedSecond, T: PairTask, L: Ledger>(
    space: &S,
    other: B,
    task: T,
    blank: Blank,
) -> T::Told
    requires name { blank.name ≡ L.name }
    requires parts { blank.parts ≡ L.parts }
    requires one { 0 < blank.parts }
    requires second { B.allows other (T.most task + 1) }
    ensures { T.tells task (S.message space.now) (B.message other) result }
{
    let (space, mut reads) = count_reads::<S, L>(space, blank);
    other.ask_beside(&space, task, &mut reads)
}
