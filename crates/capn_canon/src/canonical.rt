//! The calls `canonical_of` and `canonical_of_counted`, which lay out canonical bytes from the message, without a tree.

ghost use Rattle.std.specs.Prelude.{◌≡◌, ◌*◌, ◌+◌, ◌<◌, ◌≤◌, None, length, IfOk, IfErr, IsErrOf, MatchResult};
ghost use Rattle.capn_value.specs.Tree.{Tree as Value};
ghost use Rattle.capn_value.specs.FirstCap.{first_cap};
ghost use Rattle.capn_walk.specs.Accepted.{IsValueOf};
ghost use Rattle.capn_layout.specs.Layout.{canon};
ghost use Rattle.capn_canon.specs.Denotes.{AnswersMessage};
ghost use Rattle.capn_canon.specs.inner.Outcomes.{IsCanonicalised, ReadsWithin};
ghost use Rattle.capn_canon.specs.Canonicity.{ReadsBack, PaysItsCost, IsItsOwnForm, IsFormExactlyOf};
ghost use Rattle.capn_canon.specs.Refusal.{IsRefusedMessage, IsPaidWithin};
ghost use Rattle.capn_canon.specs.declared.refusal.Refusal.TheVariants as refusals;
ghost use Rattle.capn_canon.specs.MemoryNeed.{MayNeedBytes};

use crate::refusal::Refusal;
use crate::value_survey::survey_value;
use capn_layout::surveyed_layout_counted;
use capn_target::counted::{Asked, CountedSpace, CountedTask, Reads};
use capn_walk::Limits;
use capn_words::Space;
use std::alloc::{Allocator, Global};
use std::sync::ledger::Ledger;

/// The canonical bytes of a message, and the number of words that the walk of the message paid.
#[derive(Debug, Drop, PartialEq, Eq)]
pub struct Canonical<A: Allocator = Global> {
    /// The canonical bytes, at most 8 for each word paid, and 8 more.
    pub bytes: Vec<u8, A>,
    /// The number of words paid, at most the budget.
    pub paid: u32,
}

/// Makes the canonical bytes of the message `space`, whose reads are counted in `reads`.
fn canonical_of_inner<A: Allocator + Copy, S: Space, L: Ledger>(
    alloc: A,
    space: &CountedSpace<'_, S, L>,
    limits: Limits,
    reads: &mut Reads<L>,
) -> Result<Canonical<A>, Refusal>
    ensures told { IsCanonicalised space.now limits result (λ c. c.bytes.items) (λ c. c.paid) }
    ensures reads { ReadsWithin 56 limits result (λ c. c.paid) reads.old (reads.new + 3) }
{
    space.bounds();
    let _budget = limits.budget();
    let depth = limits.depth();
    let surveyed = survey_value(space, limits, reads)?;
    let bytes = surveyed_layout_counted(alloc, space, depth, surveyed.paid, reads)?;
    Ok(Canonical {
        bytes,
        paid: surveyed.paid,
    })
}

/// Calls [`canonical_of_inner`]. If `space` has one segment, only the words of that segment are read, which is faster.
fn canonical_by_segments<A: Allocator + Copy, S: Space, L: Ledger>(
    alloc: A,
    space: &CountedSpace<'_, S, L>,
    limits: Limits,
    reads: &mut Reads<L>,
) -> Result<Canonical<A>, Refusal>
    ensures told { IsCanonicalised space.now limits result (λ c. c.bytes.items) (λ c. c.paid) }
    ensures reads { ReadsWithin 56 limits result (λ c. c.paid) reads.old reads.new }
{
    match space.only_segment(reads) {
        Some(only) => canonical_of_inner(alloc, &only.space(), limits, reads),
        None => canonical_of_inner(alloc, space, limits, reads),
    }
}

/// The task of `canonical_of`: makes the canonical bytes of the message that it is run on.
#[derive(Drop)]
struct BytesTask<A: Allocator + Copy> {
    alloc: A,
    limits: Limits,
}

impl<A: Allocator + Copy> CountedTask for BytesTask<A> {
    type Told = Result<Canonical<A>, Refusal>;

    ghost use Rattle.std.specs.Prelude.{◌+◌, ◌*◌};
    ghost use Rattle.capn_words.specs.Message.{IsMessage};
    ghost use Rattle.capn_canon.specs.inner.Outcomes.{IsCanonicalised};

    ghost tells = { λ t m r. IsMessage m × IsCanonicalised m t.limits r (λ c. c.bytes.items) (λ c. c.paid) };

    ghost most = { λ t. 56 * (t.limits.budget + 1) };

    fn run<S: Space, L: Ledger>(
        self,
        space: &CountedSpace<'_, S, L>,
        reads: &mut Reads<L>,
    ) -> Result<Canonical<A>, Refusal> {
        space.bounds();
        canonical_of_counted(self.alloc, space, self.limits, reads)
    }
}

/// Makes the canonical bytes of the value that the message `space` denotes within `limits`. Returns them with the
/// number of words that the walk paid.
///
/// A message that is not accepted is refused by `Walk`. A value with capabilities is refused by `Capability`, with the
/// index of the first in preorder. `Memory` is returned only if an allocation on `alloc` was refused. There is no other
/// refusal.
pub fn canonical_of<A: Allocator + Copy, M: Asked>(
    alloc: A,
    space: M,
    limits: Limits,
) -> Result<Canonical<A>, Refusal>
    // `space` must allow 56 * (budget + 1) reads and turns of loops, for all passes, and one more to start the count. A
    // reference to a `Space` allows any number.
    requires work { M.allows space (56 * (limits.budget + 1) + 1) }
    // If `result` is `Ok`, `bytes` are the canonical bytes of the one value that the message denotes, and `paid` is the
    // number of words that the walk of the message pays.
    ensures found { IfOk result (λ c. AnswersMessage (M.message space) limits c.bytes.items c.paid) }
    // If the message denotes a value without capabilities, `result` has the canonical bytes, or is `Memory`.
    ensures only { (v : Value) → IsValueOf (M.message space) limits v → first_cap v ≡ None
        → MatchResult result (λ c. c.bytes.items ≡ canon v) (λ e. e ≡ refusals.Memory) }
    // If `result` is `Err(e)`, the reason that `e` gives is true.
    ensures refused { IfErr result (λ e. IsRefusedMessage (M.message space) limits e) }
    // `Memory` is returned only if the message has canonical bytes.
    ensures memory { IsErrOf result refusals.Memory → MayNeedBytes (M.message space) limits }
    // The walk pays at most the budget, also if the message is refused.
    ensures bounded { MatchResult result (λ c. c.paid ≤ limits.budget) (λ e. IsPaidWithin limits.budget e) }
    ensures short { IfOk result (λ c. length c.bytes.items ≤ 8 * (c.paid + 1)) }
    // Read bare under the same limits, the canonical bytes denote the trimmed value of `v`. The two values differ at
    // most in trailing zero words and trailing null slots of structs.
    ensures reads_back { IfOk result (λ c. (v : Value) → IsValueOf (M.message space) limits v
        → ReadsBack c.bytes.items limits v) }
    // A walk of the canonical bytes, read bare, pays exactly the cost of the trimmed value of `v`.
    ensures pays { IfOk result (λ c. (v : Value) → IsValueOf (M.message space) limits v
        → PaysItsCost c.bytes.items limits v) }
    // The canonical bytes of `v` are also the canonical bytes of the trimmed value of `v`.
    ensures own { IfOk result (λ c. (v : Value) → IsValueOf (M.message space) limits v
        → IsItsOwnForm c.bytes.items v) }
    // A value that fits and is in range has the same canonical bytes as `v` if and only if it is the same as `v`
    // (`Same`).
    ensures exactly { IfOk result (λ c. (v : Value) → IsValueOf (M.message space) limits v
        → IsFormExactlyOf c.bytes.items v) }
{
    // The proof of the clauses needs the ranges that these calls promise.
    let _budget = limits.budget();
    let _depth = limits.depth();
    space.ask(BytesTask { alloc, limits })
}

/// Makes the canonical bytes of the message `space` within `limits`, and counts reads and loop turns in `reads`.
/// Returns the result of [`canonical_of`].
///
/// There are at most 56 reads and turns for each word paid, and 56 more. Of the 56, the walk takes 14, finding the
/// lengths of the segments takes 2, measuring takes 20 if it is needed, and writing takes 20. A refusal costs at most
/// 56 for each word of the budget, and 56 more. So the budget bounds the work, whatever the message is.
pub fn canonical_of_counted<A: Allocator + Copy, S: Space, L: Ledger>(
    alloc: A,
    space: &CountedSpace<'_, S, L>,
    limits: Limits,
    reads: &mut Reads<L>,
) -> Result<Canonical<A>, Refusal>
    // If `result` is `Ok`, `bytes` are the canonical bytes of the one value that the message denotes, and `paid` is the
    // number of words that the walk of the message pays.
    ensures found { IfOk result (λ c. AnswersMessage space.now limits c.bytes.items c.paid) }
    // If the message denotes a value without capabilities, `result` has the canonical bytes, or is `Memory`.
    ensures only { (v : Value) → IsValueOf space.now limits v → first_cap v ≡ None
        → MatchResult result (λ c. c.bytes.items ≡ canon v) (λ e. e ≡ refusals.Memory) }
    // If `result` is `Err(e)`, the reason that `e` gives is true.
    ensures refused { IfErr result (λ e. IsRefusedMessage space.now limits e) }
    // `Memory` is returned only if the message has canonical bytes.
    ensures memory { IsErrOf result refusals.Memory → MayNeedBytes space.now limits }
    // The walk pays at most the budget, also if the message is refused.
    ensures bounded { MatchResult result (λ c. c.paid ≤ limits.budget) (λ e. IsPaidWithin limits.budget e) }
    ensures short { IfOk result (λ c. length c.bytes.items ≤ 8 * (c.paid + 1)) }
    // Read bare under the same limits, the canonical bytes denote the trimmed value of `v`. The two values differ at
    // most in trailing zero words and trailing null slots of structs.
    ensures reads_back { IfOk result (λ c. (v : Value) → IsValueOf space.now limits v
        → ReadsBack c.bytes.items limits v) }
    // A walk of the canonical bytes, read bare, pays exactly the cost of the trimmed value of `v`.
    ensures pays { IfOk result (λ c. (v : Value) → IsValueOf space.now limits v
        → PaysItsCost c.bytes.items limits v) }
    // The canonical bytes of `v` are also the canonical bytes of the trimmed value of `v`.
    ensures own { IfOk result (λ c. (v : Value) → IsValueOf space.now limits v
        → IsItsOwnForm c.bytes.items v) }
    // A value that fits and is in range has the same canonical bytes as `v` if and only if it is the same as `v`
    // (`Same`).
    ensures exactly { IfOk result (λ c. (v : Value) → IsValueOf space.now limits v
        → IsFormExactlyOf c.bytes.items v) }
    // All passes together do at most 56 reads and turns of loops for each word paid, and 56 more.
    ensures reads { IfOk result (λ c. reads.new ≤ reads.old + 56 * (c.paid + 1)) }
    // The budget bounds the number of reads and turns, whatever the message and the result are.
    ensures work { reads.new ≤ reads.old + 56 * (limits.budget + 1) }
{
    space.bounds();
    let _budget = limits.budget();
    let _depth = limits.depth();
    canonical_by_segments(alloc, space, limits, reads)
}
