//! The call `walk_in`, which walks a message in any form and finds the path to the slot of a refusal.

ghost use Rattle.std.specs.Prelude.{◌≡◌, ◌≤◌, ◌+◌, ◌*◌, length, IfOk, IfErr, IsErrOf, MatchResult};
ghost use Rattle.capn_value.specs.Tree.{Tree as Value};
ghost use Rattle.capn_canon.specs.Denotes.{Denotes};
ghost use Rattle.capn_canon.specs.declared.refusal.Refusal.TheVariants as refusals;
ghost use Rattle.capn_answers.specs.Paths.{IsUnread};
ghost use Rattle.capn_answers.specs.Walked.{AnswersAccepted, IsWalkedIn, IsWalkedWithin};
ghost use Rattle.capn_answers.specs.Walked.{MayNeedItsPath, walked_path};
ghost use Rattle.capn_answers.specs.inner.Answered.{IsWalkTold};

use crate::walked::Walked;
use capn_canon::{AskedInput, Form, InputTask, Refusal};
use capn_path::{Refused, path_of_stop_counted};
use capn_target::counted::{Asked, CountedSpace, CountedTask, Reads};
use capn_walk::{Limits, survey_counted};
use capn_words::Space;
use std::alloc::Allocator;
use std::sync::ledger::Ledger;

/// Walks the message `space` within `limits`, and counts reads and turns of loops in `reads`. If the walk is refused,
/// finds the path to the slot where it stopped.
#[inline(always)]
fn walk_counted<S: Space, A: Allocator + Copy, L: Ledger>(
    alloc: A,
    space: &CountedSpace<'_, S, L>,
    limits: Limits,
    reads: &mut Reads<L>,
) -> Result<Walked<A>, Refusal>
    ensures told { IsWalkTold space.now limits result }
    ensures reads { reads.new ≤ reads.old + 24 * (limits.budget + 1) + 1 }
{
    match survey_counted(space, limits, reads) {
        Ok(surveyed) => Ok(Walked::Accepted(surveyed)),
        Err(stopped) => {
            let path = path_of_stop_counted(alloc, space, limits, stopped, reads)?;
            Ok(Walked::Refused(Refused { stopped, path }))
        }
    }
}

/// The task of `walk_message`: walks the message that it is run on.
#[derive(Drop)]
struct WalkTask<A: Allocator + Copy> {
    alloc: A,
    limits: Limits,
}

impl<A: Allocator + Copy> CountedTask for WalkTask<A> {
    type Told = Result<Walked<A>, Refusal>;

    ghost use Rattle.std.specs.Prelude.{◌+◌, ◌*◌};
    ghost use Rattle.capn_answers.specs.inner.Answered.{IsWalkTold};

    ghost tells = { λ t m r. IsWalkTold m t.limits r };

    ghost most = { λ t. 24 * (t.limits.budget + 1) + 1 };

    #[inline(always)]
    fn run<S: Space, L: Ledger>(
        self,
        space: &CountedSpace<'_, S, L>,
        reads: &mut Reads<L>,
    ) -> Result<Walked<A>, Refusal> {
        walk_counted(self.alloc, space, self.limits, reads)
    }
}

/// Walks the message `space` within `limits`. If the walk is refused, finds the path to the slot where it stopped.
/// `space` is any [`Asked`], so the clause `work` bounds how often the message is read.
#[inline(always)]
fn walk_message<M: Asked, A: Allocator + Copy>(
    alloc: A,
    space: M,
    limits: Limits,
) -> Result<Walked<A>, Refusal>
    // `space` must allow 24 * (budget + 1) + 1 reads and turns of loops, and one more to start the count.
    requires work { M.allows space (24 * (limits.budget + 1) + 1 + 1) }
    ensures { IsWalkTold (M.message space) limits result }
{
    space.ask(WalkTask { alloc, limits })
}

/// The task of `walk_in_of`: walks the message that was read and, if the walk is refused, finds the path to the slot
/// where it stopped.
#[derive(Clone, Copy)]
struct Walk<A: Allocator + Copy> {
    alloc: A,
}

impl<A: Allocator + Copy> InputTask for Walk<A> {
    type Answer = Walked<A>;

    ghost use Rattle.std.specs.Prelude.{◌+◌, ◌*◌};
    ghost use Rattle.capn_answers.specs.inner.Answered.{IsWalkTold};

    ghost answers = { λ _ m limits r _. IsWalkTold m limits r };

    ghost most = { λ limits. 24 * (limits.budget + 1) + 1 + 1 };

    #[inline(always)]
    fn run_asked<M: Asked>(&mut self, message: M, limits: Limits) -> Result<Walked<A>, Refusal> {
        walk_message(self.alloc, message, limits)
    }
}

/// Walks the message that `bytes` encode in `form` within `limits`. If the message is accepted, returns its survey. If
/// the walk is refused, returns the place and the reason of the stop, and the path to that place. A path has at most
/// two numbers for each level of the depth limit. The bytes are unpacked or unframed at most once.
///
/// An `Err` that is not `Memory` says why the bytes are no message. An `Err` is never `Walk` or `Capability`. `Memory`
/// is returned only if an allocation on `alloc` was refused: for a stream of more than 64 segments, for the words that
/// a packed text unpacks to, or for the path. A message is walked at most twice. (Our own.)
pub fn walk_in<A: Allocator + Copy>(
    alloc: A,
    form: Form,
    bytes: &[u8],
    limits: Limits,
) -> Result<Walked<A>, Refusal>
    // `Accepted` has the survey of the message. `Refused` has the stop of the walk, and the path to the slot of the
    // stop.
    ensures found { IfOk result (λ w. IsWalkedIn form bytes.now limits w) }
    // If the bytes denote a value, `result` is `Accepted` or `Memory`.
    ensures only { (v : Value) → Denotes form bytes.now limits v
        → MatchResult result (λ w. AnswersAccepted w) (λ e. e ≡ refusals.Memory) }
    // A path has at most two numbers for each level of the depth limit.
    ensures short { IfOk result (λ w. length (walked_path w) ≤ 2 * limits.depth) }
    // If `result` is `Err(e)`, and `e` is not `Memory`, the reason that `e` gives is true.
    ensures refused { IfErr result (λ e. IsUnread form bytes.now limits e) }
    // `Memory` is returned only for a stream of more than 64 segments, for the unpacked words, or for the path of a
    // message whose walk is refused.
    ensures memory { IsErrOf result refusals.Memory → MayNeedItsPath form bytes.now limits }
    // If `result` is `Ok`, the price is at most the budget, and the number of visits is at most the price plus 1.
    ensures bounded { IfOk result (λ w. IsWalkedWithin limits.budget w) }
{
    walk_in_of(alloc, form, bytes, limits)
}

/// Walks the message that `bytes` encode in `form` within `limits`. Returns the result of [`walk_in`], which is this
/// call on a slice.
///
/// Here `bytes` are any [`AskedInput`], so the clause `work` bounds how often the message is read, for the walk and for
/// the search of the path together. The steps that find the message in the bytes are not counted. (Our own.)
#[inline(always)]
pub fn walk_in_of<A: Allocator + Copy, B: AskedInput>(
    alloc: A,
    form: Form,
    bytes: B,
    limits: Limits,
) -> Result<Walked<A>, Refusal>
    // The message must allow 24 * (budget + 1) + 1 reads and turns of loops, and one more to start the count. A slice
    // allows any number.
    requires work { B.allows bytes (24 * (limits.budget + 1) + 1 + 1) }
    // `Accepted` has the survey of the message. `Refused` has the stop of the walk, and the path to the slot of the
    // stop.
    ensures found { IfOk result (λ w. IsWalkedIn form (B.bytes bytes) limits w) }
    // If the bytes denote a value, `result` is `Accepted` or `Memory`.
    ensures only { (v : Value) → Denotes form (B.bytes bytes) limits v
        → MatchResult result (λ w. AnswersAccepted w) (λ e. e ≡ refusals.Memory) }
    // A path has at most two numbers for each level of the depth limit.
    ensures short { IfOk result (λ w. length (walked_path w) ≤ 2 * limits.depth) }
    // If `result` is `Err(e)`, and `e` is not `Memory`, the reason that `e` gives is true.
    ensures refused { IfErr result (λ e. IsUnread form (B.bytes bytes) limits e) }
    // `Memory` is returned only for a stream of more than 64 segments, for the unpacked words, or for the path of a
    // message whose walk is refused.
    ensures memory { IsErrOf result refusals.Memory → MayNeedItsPath form (B.bytes bytes) limits }
    // If `result` is `Ok`, the price is at most the budget, and the number of visits is at most the price plus 1.
    ensures bounded { IfOk result (λ w. IsWalkedWithin limits.budget w) }
{
    let (answer, _task) = bytes.ask_message(alloc, Walk { alloc }, form, limits);
    answer
}
