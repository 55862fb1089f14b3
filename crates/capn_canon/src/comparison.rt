//! The calls `same_messages` and `same_messages_counted`, which compare the values of two messages.

ghost use Rattle.std.specs.Prelude.{◌≡◌, ◌↔◌, ◌+◌, ◌*◌, ◌≤◌, IsOk, IfOk, IfErr, IsTrue};
ghost use Rattle.capn_value.specs.Tree.{Tree as Value};
ghost use Rattle.capn_walk.specs.Accepted.{IsValueOf, paid as price};
ghost use Rattle.capn_layout.specs.Layout.{canon};
ghost use Rattle.capn_canon.specs.CanonicalLength.{HasBytes};
ghost use Rattle.capn_canon.specs.Refusal.{IsPaidWithin};
ghost use Rattle.capn_canon.specs.declared.same_refusal.Side.TheVariants.{First, Second};
ghost use Rattle.capn_canon.specs.SameMessages.{SaysSame, IsUnfit, IsNotCompared, IsSameTold};
ghost use Rattle.capn_canon.specs.inner.Outcomes.{ReadsWithin};

use crate::refusal::Refusal;
use crate::same_refusal::{SameRefusal, Side};
use crate::value_survey::survey_value;
use capn_same::{AskedFirst, AskedSecond, PairTask, surveyed_same_counted};
use capn_target::counted::{CountedSpace, Reads};
use capn_walk::Limits;
use capn_words::Space;
use std::sync::ledger::Ledger;

/// Surveys the message `space` within `limits`. A refusal names `side` as the side of the message.
fn survey_side<S: Space, L: Ledger>(
    space: &CountedSpace<'_, S, L>,
    side: Side,
    limits: Limits,
    reads: &mut Reads<L>,
) -> Result<(), SameRefusal>
    ensures found { IfOk result (λ _. HasBytes space.now limits) }
    ensures refused { IfErr result (λ e. (e.side ≡ side) × IsUnfit space.now limits e.refusal) }
    ensures bounded { IfErr result (λ e. IsPaidWithin limits.budget e.refusal) }
    ensures reads { ReadsWithin 14 limits result (λ _. price space.now limits) (reads.old + 1) reads.new }
{
    match survey_value(space, limits, reads) {
        Ok(_) => Ok(()),
        Err(refusal) => Err(SameRefusal {
            side,
            refusal: Refusal::from(refusal),
        }),
    }
}

/// Surveys the message `b` within `limits`, and compares the values of `a` and `b`. The message `a` was surveyed
/// before.
fn same_beside<S: Space, T: Space, L: Ledger, M: Ledger>(
    a: &CountedSpace<'_, S, L>,
    b: &CountedSpace<'_, T, M>,
    limits: Limits,
    first: &mut Reads<L>,
    second: &mut Reads<M>,
) -> Result<bool, SameRefusal>
    requires { HasBytes a.now limits }
    ensures told { IsSameTold a.now b.now limits result }
    ensures side { IfErr result (λ e. e.side ≡ Second) }
    ensures first { first.new ≤ first.old + 20 * price a.now limits + 11 }
    ensures second { ReadsWithin 34 limits result (λ _. price b.now limits) second.old (second.new + 3) }
{
    a.bounds();
    b.bounds();
    let _budget = limits.budget();
    let depth = limits.depth();
    survey_side(b, Side::Second, limits, second)?;
    Ok(surveyed_same_counted(a, b, depth, first, second))
}

/// Calls [`same_beside`]. If `b` has one segment, only the words of that segment are read, which is faster.
fn same_by_segments<S: Space, T: Space, L: Ledger, M: Ledger>(
    a: &CountedSpace<'_, S, L>,
    b: &CountedSpace<'_, T, M>,
    limits: Limits,
    first: &mut Reads<L>,
    second: &mut Reads<M>,
) -> Result<bool, SameRefusal>
    requires { HasBytes a.now limits }
    ensures told { IsSameTold a.now b.now limits result }
    ensures side { IfErr result (λ e. e.side ≡ Second) }
    ensures first { first.new ≤ first.old + 20 * price a.now limits + 11 }
    ensures second { ReadsWithin 34 limits result (λ _. price b.now limits) second.old second.new }
{
    match b.only_segment(second) {
        Some(only) => same_beside(a, &only.space(), limits, first, second),
        None => same_beside(a, b, limits, first, second),
    }
}

/// Surveys the message `a` and then `b` within `limits`, and compares their values.
fn same_of<S: Space, T: Space, L: Ledger, M: Ledger>(
    a: &CountedSpace<'_, S, L>,
    b: &CountedSpace<'_, T, M>,
    limits: Limits,
    first: &mut Reads<L>,
    second: &mut Reads<M>,
) -> Result<bool, SameRefusal>
    ensures told { IsSameTold a.now b.now limits result }
    ensures unread { IfErr result (λ e. e.side ≡ First → second.new ≡ second.old) }
    ensures first { ReadsWithin 34 limits result (λ _. price a.now limits) first.old (first.new + 3) }
    ensures second { ReadsWithin 34 limits result (λ _. price b.now limits) second.old second.new }
{
    a.bounds();
    let _budget = limits.budget();
    let _depth = limits.depth();
    survey_side(a, Side::First, limits, first)?;
    same_by_segments(a, b, limits, first, second)
}

/// Calls [`same_of`]. If `a` has one segment, only the words of that segment are read, which is faster.
fn same_by_first<S: Space, T: Space, L: Ledger, M: Ledger>(
    a: &CountedSpace<'_, S, L>,
    b: &CountedSpace<'_, T, M>,
    limits: Limits,
    first: &mut Reads<L>,
    second: &mut Reads<M>,
) -> Result<bool, SameRefusal>
    ensures told { IsSameTold a.now b.now limits result }
    ensures unread { IfErr result (λ e. e.side ≡ First → second.new ≡ second.old) }
    ensures first { ReadsWithin 34 limits result (λ _. price a.now limits) first.old first.new }
    ensures second { ReadsWithin 34 limits result (λ _. price b.now limits) second.old second.new }
{
    match a.only_segment(first) {
        Some(only) => same_of(&only.space(), b, limits, first, second),
        None => same_of(a, b, limits, first, second),
    }
}

/// Compares the values of the messages `a` and `b` within `limits`. Returns the result of [`same_messages`]. Reads and
/// loop turns are counted in `first` for `a` and in `second` for `b`.
///
/// Each counter has its own bound. If both messages have canonical bytes, it counts at most 34 reads and turns for each
/// word that the walk of its message pays, and 34 more. In any case it counts at most 34 for each word of the budget,
/// and 34 more. If `a` is refused, nothing of `b` is read. Only the stack is used.
pub fn same_messages_counted<S: Space, T: Space, L: Ledger, M: Ledger>(
    a: &CountedSpace<'_, S, L>,
    b: &CountedSpace<'_, T, M>,
    limits: Limits,
    first: &mut Reads<L>,
    second: &mut Reads<M>,
) -> Result<bool, SameRefusal>
    // `result` is `Ok` if and only if both messages denote values without capabilities within the limits.
    ensures answered { IsOk result ↔ (HasBytes a.now limits × HasBytes b.now limits) }
    // If `result` is `Ok`, it is `true` if and only if the two values are the same (`Same`).
    ensures found { IfOk result (λ same. SaysSame a.now b.now limits same) }
    // If `result` is `Ok`, it is `true` if and only if the canonical bytes of the two values are equal.
    ensures equal { IfOk result (λ same. (v w : Value) → IsValueOf a.now limits v → IsValueOf b.now limits w
        → IsTrue same ↔ (canon v ≡ canon w)) }
    // An `Err` is the refusal of the first message, or of the second if the first is not refused.
    ensures refused { IfErr result (λ e. IsNotCompared a.now b.now limits e) }
    // If the first message is refused, the second is not read.
    ensures unread { IfErr result (λ e. e.side ≡ First → second.new ≡ second.old) }
    // A refused walk pays at most the budget.
    ensures bounded { IfErr result (λ e. IsPaidWithin limits.budget e.refusal) }
    // For each message there are at most 34 reads and turns of loops for each word that its walk pays, and 34 more.
    ensures first_paid { IfOk result (λ _. first.new ≤ first.old + 34 * (price a.now limits + 1)) }
    ensures second_paid { IfOk result (λ _. second.new ≤ second.old + 34 * (price b.now limits + 1)) }
    // The budget bounds the numbers that `first` and `second` count, whatever the messages and the result are.
    ensures first { first.new ≤ first.old + 34 * (limits.budget + 1) }
    ensures second { second.new ≤ second.old + 34 * (limits.budget + 1) }
{
    a.bounds();
    b.bounds();
    let _budget = limits.budget();
    let _depth = limits.depth();
    same_by_first(a, b, limits, first, second)
}

/// The task of `same_messages`: compares the two messages that it is run on.
#[derive(Drop)]
struct SameTask {
    limits: Limits,
}

impl PairTask for SameTask {
    type Told = Result<bool, SameRefusal>;

    ghost use Rattle.std.specs.Prelude.{◌+◌, ◌*◌};
    ghost use Rattle.capn_words.specs.Message.{IsMessage};
    ghost use Rattle.capn_canon.specs.SameMessages.{IsSameTold};

    ghost tells = { λ t m n r. IsMessage m × IsMessage n × IsSameTold m n t.limits r };

    ghost most = { λ t. 34 * (t.limits.budget + 1) };

    fn run<S: Space, T: Space, L: Ledger, M: Ledger>(
        self,
        a: &CountedSpace<'_, S, L>,
        b: &CountedSpace<'_, T, M>,
        first: &mut Reads<L>,
        second: &mut Reads<M>,
    ) -> Result<bool, SameRefusal> {
        a.bounds();
        b.bounds();
        same_messages_counted(a, b, self.limits, first, second)
    }
}

/// Returns `true` if the messages `a` and `b` have the same value within `limits`, up to trailing zero words and
/// trailing null slots of structs. The result is `true` if and only if the canonical bytes of `a` and `b` are equal.
///
/// Both messages are walked, `a` first. A message that is not accepted or has capabilities is refused, by `Walk` or
/// `Capability`, with the side of the message. If `a` is refused, no word of `b` is read. There is no other refusal.
/// The values are then read in step, up to the first difference. No canonical bytes are made, and only the stack is
/// used. (Our own.)
pub fn same_messages<A: AskedFirst, B: AskedSecond>(
    a: A,
    b: B,
    limits: Limits,
) -> Result<bool, SameRefusal>
    // Each message must allow 34 * (budget + 1) reads and turns of loops, as for `canonical_length`, and one more to
    // start the count. A reference to a `Space` allows any number.
    requires work { A.allows a (34 * (limits.budget + 1) + 1) × B.allows b (34 * (limits.budget + 1) + 1) }
    // `result` is `Ok` if and only if both messages denote values without capabilities within the limits.
    ensures answered { IsOk result ↔ (HasBytes (A.message a) limits × HasBytes (B.message b) limits) }
    // If `result` is `Ok`, it is `true` if and only if the two values are the same (`Same`).
    ensures found { IfOk result (λ same. SaysSame (A.message a) (B.message b) limits same) }
    // If `result` is `Ok`, it is `true` if and only if the canonical bytes of the two values are equal.
    ensures equal { IfOk result (λ same. (v w : Value) → IsValueOf (A.message a) limits v
        → IsValueOf (B.message b) limits w → IsTrue same ↔ (canon v ≡ canon w)) }
    // An `Err` is the refusal of the first message, or of the second if the first is not refused.
    ensures refused { IfErr result (λ e. IsNotCompared (A.message a) (B.message b) limits e) }
    // A refused walk pays at most the budget.
    ensures bounded { IfErr result (λ e. IsPaidWithin limits.budget e.refusal) }
{
    // The proof of the clauses needs the ranges that these calls promise.
    let _budget = limits.budget();
    let _depth = limits.depth();
    a.ask_pair(b, SameTask { limits })
}
