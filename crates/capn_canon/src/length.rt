//! The calls `canonical_length` and `canonical_length_counted`, which find the length of canonical bytes.

ghost use Rattle.std.specs.Prelude.{◌≡◌, ◌↔◌, ◌+◌, ◌*◌, ◌<◌, ◌≤◌, None, length, IsOk, IfOk, IfErr, MatchResult};
ghost use Rattle.capn_value.specs.Tree.{Tree as Value};
ghost use Rattle.capn_value.specs.FirstCap.{first_cap};
ghost use Rattle.capn_walk.specs.Accepted.{IsValueOf, IsBounded, paid as price};
ghost use Rattle.capn_layout.specs.Layout.{canon};
ghost use Rattle.capn_canon.specs.CanonicalLength.{IsCanonicalLength, HasBytes};
ghost use Rattle.capn_canon.specs.MessageRefusal.{HasNoBytes, IsMessagePaidWithin};
ghost use Rattle.capn_canon.specs.inner.Outcomes.{IsBeyond, IsLengthTold, ReadsWithin};

use crate::message_refusal::MessageRefusal;
use crate::value_survey::survey_value;
use capn_layout::surveyed_length_counted;
use capn_target::counted::{Asked, CountedSpace, CountedTask, Reads};
use capn_walk::Limits;
use capn_words::Space;
use std::sync::ledger::Ledger;

/// The length of the canonical bytes of a message, with the price and the number of visits of the walk.
#[derive(Clone, Copy, Debug, PartialEq, Eq)]
pub struct CanonicalLength {
    /// The number of canonical bytes: at most 8 for each word paid, and 8 more.
    pub length: usize,
    /// The number of words paid, at most the budget.
    pub paid: u32,
    /// The number of visits, at most one more than the words paid.
    pub visits: u32,
}

/// Returns the length of the canonical bytes of the surveyed message `space` if the length is above `room`, and
/// otherwise `None`. `paid` is the number of words that the survey paid. If `8 * (paid + 1)` is at most `room`, the
/// length cannot be above `room`, and is not measured.
pub(crate) fn length_beyond<S: Space, L: Ledger>(
    space: &CountedSpace<'_, S, L>,
    limits: Limits,
    paid: u32,
    room: usize,
    reads: &mut Reads<L>,
) -> Option<usize>
    requires value { (v : Value) × IsValueOf space.now limits v }
    requires pays { paid ≡ price space.now limits }
    ensures beyond { (v : Value) → IsValueOf space.now limits v → IsBeyond (length (canon v)) room result }
    ensures reads { reads.new ≤ reads.old + 20 * paid + 11 }
{
    space.bounds();
    let _budget = limits.budget();
    let depth = limits.depth();
    if (paid as usize) < room / 8 {
        return None;
    }
    let length = 8 * surveyed_length_counted(space, depth, reads) as usize;
    if length <= room {
        return None;
    }
    Some(length)
}

/// Returns the length of the canonical bytes of the message `space`, whose reads are counted in `reads`.
fn length_of<S: Space, L: Ledger>(
    space: &CountedSpace<'_, S, L>,
    limits: Limits,
    reads: &mut Reads<L>,
) -> Result<CanonicalLength, MessageRefusal>
    ensures told { IsLengthTold space.now limits result }
    ensures reads { ReadsWithin 34 limits result (λ c. c.paid) reads.old (reads.new + 3) }
{
    space.bounds();
    let _budget = limits.budget();
    let depth = limits.depth();
    let surveyed = survey_value(space, limits, reads)?;
    let length = 8 * surveyed_length_counted(space, depth, reads) as usize;
    Ok(CanonicalLength {
        length,
        paid: surveyed.paid,
        visits: surveyed.visits,
    })
}

/// Calls [`length_of`]. If `space` has one segment, only the words of that segment are read, which is faster.
fn length_by_segments<S: Space, L: Ledger>(
    space: &CountedSpace<'_, S, L>,
    limits: Limits,
    reads: &mut Reads<L>,
) -> Result<CanonicalLength, MessageRefusal>
    ensures told { IsLengthTold space.now limits result }
    ensures reads { ReadsWithin 34 limits result (λ c. c.paid) reads.old reads.new }
{
    match space.only_segment(reads) {
        Some(only) => length_of(&only.space(), limits, reads),
        None => length_of(space, limits, reads),
    }
}

/// The task of `canonical_length`: measures the canonical bytes of the message that it is run on.
#[derive(Drop)]
struct LengthTask {
    limits: Limits,
}

impl CountedTask for LengthTask {
    type Told = Result<CanonicalLength, MessageRefusal>;

    ghost use Rattle.std.specs.Prelude.{◌+◌, ◌*◌};
    ghost use Rattle.capn_words.specs.Message.{IsMessage};
    ghost use Rattle.capn_canon.specs.inner.Outcomes.{IsLengthTold};

    ghost tells = { λ t m r. IsMessage m × IsLengthTold m t.limits r };

    ghost most = { λ t. 34 * (t.limits.budget + 1) };

    fn run<S: Space, L: Ledger>(
        self,
        space: &CountedSpace<'_, S, L>,
        reads: &mut Reads<L>,
    ) -> Result<CanonicalLength, MessageRefusal> {
        space.bounds();
        canonical_length_counted(space, self.limits, reads)
    }
}

/// Returns the length of the canonical bytes of the value that the message `space` denotes within `limits`.
///
/// A message that is not accepted is refused by `Walk`, and a value with capabilities by `Capability`. There is no
/// other refusal. A message that is not refused is read twice. Only the stack is used, at any depth. (Our own.)
pub fn canonical_length<M: Asked>(
    space: M,
    limits: Limits,
) -> Result<CanonicalLength, MessageRefusal>
    // `space` must allow 34 * (budget + 1) reads and turns of loops, for both passes, and one more to start the count.
    // A reference to a `Space` allows any number.
    requires work { M.allows space (34 * (limits.budget + 1) + 1) }
    // `result` is `Ok` if and only if the message denotes a value without capabilities within the limits.
    ensures answered { IsOk result ↔ HasBytes (M.message space) limits }
    // If `result` is `Ok`, `length` is the length of the value's canonical bytes, `paid` the number of words that the
    // walk pays, and `visits` the number of visits.
    ensures found { IfOk result (λ c. (v : Value) × IsCanonicalLength (M.message space) limits v c) }
    // If `result` is `Err(e)`, the reason that `e` gives is true.
    ensures refused { IfErr result (λ e. HasNoBytes (M.message space) limits e) }
    // The walk pays at most the budget, also if the message is refused.
    ensures bounded { MatchResult result (λ c. IsBounded limits.budget c.paid c.visits)
        (λ e. IsMessagePaidWithin limits.budget e) }
    ensures short { IfOk result (λ c. c.length ≤ 8 * (c.paid + 1)) }
{
    // The proof of the clauses needs the ranges that these calls promise.
    let _budget = limits.budget();
    let _depth = limits.depth();
    space.ask(LengthTask { limits })
}

/// Finds the length of the canonical bytes of the message `space` within `limits`, and counts reads and loop turns in
/// `reads`. Returns the result of [`canonical_length`].
///
/// There are at most 34 reads and turns for each word paid, and 34 more: 14 in the walk and 20 to measure. A refusal
/// costs at most 34 for each word of the budget, and 34 more. So the budget bounds the work, whatever the message is.
/// Only the stack is used.
pub fn canonical_length_counted<S: Space, L: Ledger>(
    space: &CountedSpace<'_, S, L>,
    limits: Limits,
    reads: &mut Reads<L>,
) -> Result<CanonicalLength, MessageRefusal>
    // `result` is `Ok` if and only if the message denotes a value without capabilities within the limits.
    ensures answered { IsOk result ↔ HasBytes space.now limits }
    // If `result` is `Ok`, `length` is the length of the value's canonical bytes, `paid` the number of words that the
    // walk pays, and `visits` the number of visits.
    ensures found { IfOk result (λ c. (v : Value) × IsCanonicalLength space.now limits v c) }
    // If `result` is `Err(e)`, the reason that `e` gives is true.
    ensures refused { IfErr result (λ e. HasNoBytes space.now limits e) }
    // The walk pays at most the budget, also if the message is refused.
    ensures bounded { MatchResult result (λ c. IsBounded limits.budget c.paid c.visits)
        (λ e. IsMessagePaidWithin limits.budget e) }
    ensures short { IfOk result (λ c. c.length ≤ 8 * (c.paid + 1)) }
    // Both passes together do at most 34 reads and turns of loops for each word paid, and 34 more.
    ensures reads { IfOk result (λ c. reads.new ≤ reads.old + 34 * (c.paid + 1)) }
    // The budget bounds the number of reads and turns, whatever the message and the result are.
    ensures work { reads.new ≤ reads.old + 34 * (limits.budget + 1) }
{
    space.bounds();
    let _budget = limits.budget();
    let _depth = limits.depth();
    length_by_segments(space, limits, reads)
}
