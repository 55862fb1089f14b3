//! The comparison of two messages in the same form, without making canonical bytes.

ghost use Rattle.std.specs.Prelude.{◌≡◌, ◌+◌, ◌*◌, ◌≤◌, IfOk, IfErr, IsErrOf};
ghost use Rattle.capn_canon.specs.CanonicalLength.{HasBytes};
ghost use Rattle.capn_canon.specs.MemoryNeed.{MayNeedMemory};
ghost use Rattle.capn_canon.specs.Refusal.{IsPaidWithin, IsRefused};
ghost use Rattle.capn_canon.specs.declared.refusal.Refusal.TheVariants as refusals;
ghost use Rattle.capn_c.specs.inner.Told.{IsCompared, IsComparedTo, IsSameTo, IsSecondTold, IsToldOf};

use crate::asked_beside::{AskedBeside, BesideTask};
use crate::same_surveyed::same_surveyed;
use capn_canon::{Form, MessageTask, Refusal, run_task};
use capn_target::counted::{Asked, CountedSpace, CountedTask, Reads};
use capn_walk::{Limits, survey_counted};
use capn_words::Space;
use std::alloc::Global;
use std::marker::Model;
use std::sync::ledger::Ledger;

/// Surveys the message `space` within `limits`, and counts reads and turns of loops in `reads`. Refuses a message
/// without canonical bytes.
#[inline(always)]
fn survey_free<S: Space, L: Ledger>(
    space: &CountedSpace<'_, S, L>,
    limits: Limits,
    reads: &mut Reads<L>,
) -> Result<(), Refusal>
    ensures told { IsToldOf space.now limits (λ _. HasBytes space.now limits) result }
    ensures reads { reads.new ≤ reads.old + 14 * (limits.budget + 1) + 1 }
{
    match survey_counted(space, limits, reads) {
        Ok(surveyed) => match surveyed.capability {
            Some(index) => Err(Refusal::Capability(index)),
            None => Ok(()),
        },
        Err(stopped) => Err(Refusal::Walk(stopped)),
    }
}

/// Tests whether `b` has the value of `a`, and counts reads and turns of loops in `first` for `a` and in `second` for
/// `b`. Refuses a `b` without canonical bytes.
#[inline(always)]
fn same_counted<S: Space, T: Space, L: Ledger, M: Ledger>(
    a: &CountedSpace<'_, S, L>,
    b: &CountedSpace<'_, T, M>,
    limits: Limits,
    first: &mut Reads<L>,
    second: &mut Reads<M>,
) -> Result<bool, Refusal>
    requires { HasBytes a.now limits }
    ensures told { IsToldOf b.now limits (λ same. IsSameTo a.now b.now limits same) result }
    ensures first { first.new ≤ first.old + 20 * limits.budget + 14 }
    ensures second { second.new ≤ second.old + 34 * (limits.budget + 1) }
{
    survey_free(b, limits, second)?;
    Ok(same_surveyed(a, b, limits, first, second))
}

/// The task of `same_message`: tests whether the second message has the value of the first, which has canonical bytes
/// within `limits`.
#[derive(Drop)]
struct SameTask {
    limits: Limits,
}

impl BesideTask for SameTask {
    type Told = Result<bool, Refusal>;

    ghost use Rattle.std.specs.Prelude.{◌+◌, ◌*◌};
    ghost use Rattle.capn_canon.specs.CanonicalLength.{HasBytes};
    ghost use Rattle.capn_c.specs.inner.Told.{IsSameTo, IsToldOf};

    ghost needs = { λ t m. HasBytes m t.limits };

    ghost tells = { λ t m n r. IsToldOf n t.limits (λ same. IsSameTo m n t.limits same) r };

    ghost most_first = { λ t. 20 * t.limits.budget + 14 };

    ghost most_second = { λ t. 34 * (t.limits.budget + 1) };

    #[inline(always)]
    fn run<S: Space, T: Space, L: Ledger, M: Ledger>(
        self,
        a: &CountedSpace<'_, S, L>,
        b: &CountedSpace<'_, T, M>,
        first: &mut Reads<L>,
        second: &mut Reads<M>,
    ) -> Result<bool, Refusal> {
        same_counted(a, b, self.limits, first, second)
    }
}

/// Tests whether `second` has the value of `first`, whose reads are counted in `reads`. Refuses a `second` without
/// canonical bytes.
///
/// `second` is any [`AskedBeside`], so the clause `work` bounds how often the message is read.
#[inline(always)]
fn same_message<S: Space, L: Ledger, B: AskedBeside>(
    first: &CountedSpace<'_, S, L>,
    second: B,
    limits: Limits,
    reads: &mut Reads<L>,
) -> Result<bool, Refusal>
    // `second` must allow 34 * (budget + 1) reads and turns of loops, and one more to start the count.
    requires work { B.allows second (34 * (limits.budget + 1) + 1) }
    requires first { HasBytes first.now limits }
    ensures told { IsToldOf (B.message second) limits
        (λ same. IsSameTo first.now (B.message second) limits same) result }
    ensures reads { reads.new ≤ reads.old + 20 * limits.budget + 14 }
{
    second.ask_beside(first, SameTask { limits }, reads)
}

/// A first message, which has canonical bytes within `limits`.
#[derive(Drop)]
struct Surveyed<'f, 's, A: Space, L: Ledger> {
    space: &'f CountedSpace<'s, A, L>,
    limits: Limits,
}

impl<'f, 's, A: Space, L: Ledger> Model for Surveyed<'f, 's, A, L> {
    ghost use Rattle.std.specs.Prelude.{ℕ, List};
    ghost use Rattle.capn_walk.specs.Limits.{Bounds};
    ghost use Rattle.capn_canon.specs.CanonicalLength.{HasBytes};

    ghost Value = { List (List ℕ) × Bounds };

    ghost view = { λ s. (s.space.now, s.limits) };

    ghost invariant = { λ s. HasBytes s.space.now s.limits };
}

/// The task of `same_in`: tests whether the second message has the value of `first`, whose reads are counted in
/// `reads`.
#[derive(Drop)]
struct Second<'f, 's, A: Space, L: Ledger> {
    first: &'f Surveyed<'f, 's, A, L>,
    reads: &'f mut Reads<L>,
}

impl<'f, 's, A: Space, L: Ledger> MessageTask<Global> for Second<'f, 's, A, L> {
    /// Whether the values are the same.
    type Answer = bool;

    ghost use Rattle.std.specs.Prelude.{◌≡◌, ◌+◌, ◌*◌, ◌≤◌};

    ghost answers = { λ task m _ r after.
        ((after.reads.ghost_name ≡ task.reads.ghost_name)
        × (after.reads.now ≤ task.reads.now + 20 * task.first.now.1.budget + 14))
        × IsToldOf m task.first.now.1 (λ same. IsSameTo task.first.now.0 m task.first.now.1 same) r };

    #[inline(always)]
    fn run<S: Space>(
        &mut self,
        _alloc: Global,
        message: &S,
        _limits: Limits,
    ) -> Result<bool, Refusal> {
        let first = self.first;
        same_message(first.space, message, first.limits, self.reads)
    }
}

/// Runs `task` on the message that `bytes` encode in `form`.
#[inline(always)]
fn run_second<A: Space, L: Ledger>(
    alloc: Global,
    task: &mut Second<'_, '_, A, L>,
    form: Form,
    bytes: &[u8],
    limits: Limits,
) -> Result<bool, Refusal>
    requires { limits ≡ task.old.first.now.1 }
    ensures same_reads { task.new.reads.ghost_name ≡ task.old.reads.ghost_name }
    ensures reads { task.new.reads.now ≤ task.old.reads.now + 20 * limits.budget + 14 }
    ensures told { IsSecondTold task.old.first.now.0 form bytes.now limits result }
{
    run_task(alloc, task, form, bytes, limits)
}

/// Tests whether the message that `bytes` encode in `form` has the value of `first`, whose reads are counted in
/// `reads`. Memory is allocated only for a packed text, and for a frame of more than 64 segments.
#[inline(always)]
fn same_in<A: Space, L: Ledger>(
    alloc: Global,
    first: &CountedSpace<'_, A, L>,
    form: Form,
    bytes: &[u8],
    limits: Limits,
    reads: &mut Reads<L>,
) -> Result<bool, Refusal>
    requires first { HasBytes first.now limits }
    ensures told { IsSecondTold first.now form bytes.now limits result }
    ensures reads { reads.new ≤ reads.old + 20 * limits.budget + 14 }
{
    let first = Surveyed {
        space: first,
        limits,
    };
    let mut task = Second {
        first: &first,
        reads,
    };
    run_second(alloc, &mut task, form, bytes, limits)
}

/// Compares the message `space` with the message that `second` encodes in `form`, and counts reads and turns of loops
/// on `space` in `reads`. `second` isn't read if `space` has no canonical bytes.
#[inline(always)]
fn compare_counted<S: Space, L: Ledger>(
    alloc: Global,
    space: &CountedSpace<'_, S, L>,
    form: Form,
    second: &[u8],
    limits: Limits,
    reads: &mut Reads<L>,
) -> Result<Result<bool, Refusal>, Refusal>
    ensures told { IsComparedTo form second.now space.now limits result }
    ensures reads { reads.new ≤ reads.old + 34 * (limits.budget + 1) }
{
    survey_free(space, limits, reads)?;
    Ok(same_in(alloc, space, form, second, limits, reads))
}

/// The task of `compare_message`: compares the message that it is run on with the message that `second` encodes in
/// `form`.
#[derive(Drop)]
struct CompareTask<'a> {
    alloc: Global,
    form: Form,
    second: &'a [u8],
    limits: Limits,
}

impl CountedTask for CompareTask<'_> {
    type Told = Result<Result<bool, Refusal>, Refusal>;

    ghost use Rattle.std.specs.Prelude.{◌+◌, ◌*◌};
    ghost use Rattle.capn_c.specs.inner.Told.{IsComparedTo};

    ghost tells = { λ t m r. IsComparedTo t.form t.second.now m t.limits r };

    ghost most = { λ t. 34 * (t.limits.budget + 1) };

    #[inline(always)]
    fn run<S: Space, L: Ledger>(
        self,
        space: &CountedSpace<'_, S, L>,
        reads: &mut Reads<L>,
    ) -> Result<Result<bool, Refusal>, Refusal> {
        compare_counted(
            self.alloc,
            space,
            self.form,
            self.second,
            self.limits,
            reads,
        )
    }
}

/// Compares the message `first` with the message that `second` encodes in `form`. An inner `Err` is the refusal of
/// `second`. An outer `Err` is the refusal of `first`, and `second` is then not read.
///
/// `first` is any [`Asked`], so the clause `work` bounds how often the message is read.
#[inline(always)]
fn compare_message<A: Asked>(
    alloc: Global,
    first: A,
    form: Form,
    second: &[u8],
    limits: Limits,
) -> Result<Result<bool, Refusal>, Refusal>
    // `first` must allow 34 * (budget + 1) reads and turns of loops, and one more to start the count.
    requires work { A.allows first (34 * (limits.budget + 1) + 1) }
    ensures { IsComparedTo form second.now (A.message first) limits result }
{
    first.ask(CompareTask {
        alloc,
        form,
        second,
        limits,
    })
}

/// The task of `compared_in`: compares a first message with the message that `second` encodes in `form`.
#[derive(Clone, Copy)]
struct Compare<'a> {
    form: Form,
    second: &'a [u8],
}

impl<'a> MessageTask<Global> for Compare<'a> {
    /// The comparison of the two values, or the refusal of the second message.
    type Answer = Result<bool, Refusal>;

    ghost answers = { λ task m limits r _. IsComparedTo task.form task.second.now m limits r };

    fn run<S: Space>(
        &mut self,
        alloc: Global,
        message: &S,
        limits: Limits,
    ) -> Result<Result<bool, Refusal>, Refusal> {
        compare_message(alloc, message, self.form, self.second, limits)
    }
}

/// Tests whether the messages that `first` and `second` encode in `form` have the same value within `limits`. An inner
/// `Err` is the refusal of `second`. An outer `Err` is the refusal of `first`, and `second` is then not read.
///
/// No input is unpacked or unframed twice. Only packed texts, and frames of more than 64 segments, need memory.
pub fn compared_in(
    alloc: Global,
    form: Form,
    first: &[u8],
    second: &[u8],
    limits: Limits,
) -> Result<Result<bool, Refusal>, Refusal>
    ensures found { IfOk result (λ r. IsCompared form first.now second.now limits r) }
    ensures refused { IfErr result (λ e. IsRefused form first.now limits e) }
    ensures memory { IsErrOf result refusals.Memory → MayNeedMemory form first.now limits }
    ensures bounded { IfErr result (λ e. IsPaidWithin limits.budget e) }
{
    let mut task = Compare { form, second };
    run_task(alloc, &mut task, form, first, limits)
}
