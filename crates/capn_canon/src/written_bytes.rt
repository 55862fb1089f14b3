//! The calls `canonical_into` and `canonical_into_counted`, which write canonical bytes into the caller's buffer.

ghost use Rattle.std.specs.Prelude.{◌≡◌, ◌+◌, ◌*◌, ◌<◌, ◌≤◌, length, take, drop, IfOk, IfErr, OnErr, MatchResult};
ghost use Rattle.capn_value.specs.Tree.{Tree as Value};
ghost use Rattle.capn_walk.specs.Accepted.{IsValueOf, IsBounded};
ghost use Rattle.capn_canon.specs.Denotes.{AnswersMessage};
ghost use Rattle.capn_canon.specs.Canonicity.{ReadsBack, PaysItsCost, IsItsOwnForm, IsFormExactlyOf};
ghost use Rattle.capn_canon.specs.MessageRefusal.{IsIntoPaidWithin};
ghost use Rattle.capn_canon.specs.Theorem.{AnsweredInto, WrittenInto, RefusedInto};
ghost use Rattle.capn_canon.specs.inner.Outcomes.{IsInto, ReadsWithin};

use crate::length::{CanonicalLength, length_beyond};
use crate::message_refusal::IntoRefusal;
use crate::value_survey::survey_value;
use capn_layout::surveyed_layout_into_counted;
use capn_target::counted::{Asked, CountedSpace, CountedWriter, Reads};
use capn_walk::Limits;
use capn_words::Space;
use std::sync::ledger::Ledger;

/// Writes the canonical bytes of the message `space`, whose reads are counted in `reads`, to `out`.
fn write_message<S: Space, L: Ledger>(
    space: &CountedSpace<'_, S, L>,
    limits: Limits,
    out: &mut [u8],
    reads: &mut Reads<L>,
) -> Result<CanonicalLength, IntoRefusal>
    ensures into { IsInto space.now limits out.old out.new result }
    ensures reads { ReadsWithin 54 limits result (λ c. c.paid) reads.old (reads.new + 3) }
{
    space.bounds();
    let _budget = limits.budget();
    let depth = limits.depth();
    let surveyed = survey_value(space, limits, reads)?;
    if let Some(needed) = length_beyond(space, limits, surveyed.paid, out.len(), reads) {
        let paid = surveyed.paid;
        return Err(IntoRefusal::NoRoom { needed, paid });
    }
    let length = surveyed_layout_into_counted(space, depth, out, reads);
    Ok(CanonicalLength {
        length,
        paid: surveyed.paid,
        visits: surveyed.visits,
    })
}

/// Calls [`write_message`]. If `space` has one segment, only the words of that segment are read, which is faster.
fn write_by_segments<S: Space, L: Ledger>(
    space: &CountedSpace<'_, S, L>,
    limits: Limits,
    out: &mut [u8],
    reads: &mut Reads<L>,
) -> Result<CanonicalLength, IntoRefusal>
    ensures into { IsInto space.now limits out.old out.new result }
    ensures reads { ReadsWithin 54 limits result (λ c. c.paid) reads.old reads.new }
{
    match space.only_segment(reads) {
        Some(only) => write_message(&only.space(), limits, out, reads),
        None => write_message(space, limits, out, reads),
    }
}

/// The task of `canonical_into`: writes the canonical bytes of the message that it is run on into a buffer.
#[derive(Drop)]
struct IntoTask {
    limits: Limits,
}

impl CountedWriter for IntoTask {
    type Told = Result<CanonicalLength, IntoRefusal>;

    type Item = u8;

    ghost use Rattle.std.specs.Prelude.{◌+◌, ◌*◌};
    ghost use Rattle.capn_words.specs.Message.{IsMessage};
    ghost use Rattle.capn_canon.specs.inner.Outcomes.{IsInto};

    ghost tells = { λ t m old new r. IsMessage m × IsInto m t.limits old new r };

    ghost most = { λ t. 54 * (t.limits.budget + 1) };

    fn run<S: Space, L: Ledger>(
        self,
        space: &CountedSpace<'_, S, L>,
        out: &mut [u8],
        reads: &mut Reads<L>,
    ) -> Result<CanonicalLength, IntoRefusal> {
        space.bounds();
        canonical_into_counted(space, self.limits, out, reads)
    }
}

/// Writes the canonical bytes of the value that the message `space` denotes within `limits` to the beginning of `out`.
/// Returns the number of bytes written, the number of words that the walk pays, and the number of visits. The bytes of
/// `out` after the canonical bytes stay as they were.
///
/// The refusals are tested in this order, and each leaves `out` as it was. `Walk` refuses a message that is not
/// accepted. `Capability` refuses a value with capabilities, with the index of the first in preorder. `NoRoom` refuses
/// an `out` that is shorter than the canonical bytes, with the length needed and the number of words that the walk
/// pays.
///
/// Only the stack is used, whatever the depth. `8 * (paid + 1)` bytes are always enough, and so are `8 * (budget + 1)`.
/// If `out` has fewer than `8 * (paid + 1)` bytes, the canonical bytes are measured before any byte is written. (Our
/// own.)
pub fn canonical_into<M: Asked>(
    space: M,
    limits: Limits,
    out: &mut [u8],
) -> Result<CanonicalLength, IntoRefusal>
    // `space` must allow 54 * (budget + 1) reads and turns of loops, for all passes, and one more to start the count. A
    // reference to a `Space` allows any number.
    requires work { M.allows space (54 * (limits.budget + 1) + 1) }
    // The theorem: `result` is `Ok` if and only if the message denotes a value without capabilities within the limits,
    // and `out` has room for its canonical bytes.
    ensures answered { AnsweredInto (M.message space) limits (length out.old) result }
    // If `result` is `Ok`, the canonical bytes are at the beginning of `out`, and the bytes after them are as before.
    ensures written { IfOk result (λ c. WrittenInto (M.message space) limits out.old out.new c) }
    // If `result` is `Err(e)`, the reason that `e` gives is true, and no earlier test refuses the message.
    ensures refused { IfErr result (λ e. RefusedInto (M.message space) limits (length out.old) e) }
    // If `result` is an `Err`, `out` is as it was.
    ensures unchanged { OnErr result (out.new ≡ out.old) }
    // The walk pays at most the budget, also if the message is refused.
    ensures bounded { MatchResult result (λ c. IsBounded limits.budget c.paid c.visits)
        (λ e. IsIntoPaidWithin limits.budget e) }
    // The bytes written are those that `canonical_of` returns for the same message.
    ensures found { IfOk result (λ c. AnswersMessage (M.message space) limits (take c.length out.new) c.paid) }
    ensures past { IfOk result (λ c. drop c.length out.new ≡ drop c.length out.old) }
    ensures inside { IfOk result (λ c. c.length ≤ length out.new) }
    ensures short { IfOk result (λ c. c.length ≤ 8 * (c.paid + 1)) }
    // Read bare under the same limits, the canonical bytes denote the trimmed value of `v`. The two values differ at
    // most in trailing zero words and trailing null slots of structs.
    ensures reads_back { IfOk result (λ c. (v : Value) → IsValueOf (M.message space) limits v
        → ReadsBack (take c.length out.new) limits v) }
    // A walk of the canonical bytes, read bare, pays exactly the cost of the trimmed value of `v`.
    ensures pays { IfOk result (λ c. (v : Value) → IsValueOf (M.message space) limits v
        → PaysItsCost (take c.length out.new) limits v) }
    // The canonical bytes of `v` are also the canonical bytes of the trimmed value of `v`.
    ensures own { IfOk result (λ c. (v : Value) → IsValueOf (M.message space) limits v
        → IsItsOwnForm (take c.length out.new) v) }
    // A value that fits and is in range has the same canonical bytes as `v` if and only if it is the same as `v`
    // (`Same`).
    ensures exactly { IfOk result (λ c. (v : Value) → IsValueOf (M.message space) limits v
        → IsFormExactlyOf (take c.length out.new) v) }
{
    // The proof of the clauses needs the ranges that these calls promise.
    let _budget = limits.budget();
    let _depth = limits.depth();
    space.ask_into(IntoTask { limits }, out)
}

/// Writes the canonical bytes of the message `space` to `out` within `limits`, and counts reads and loop turns in
/// `reads`. Returns the result of [`canonical_into`].
///
/// There are at most 54 reads and turns for each word paid, and 54 more. Of the 54, the walk takes 14, measuring takes
/// 20 if it is needed, and writing takes 20. A refusal costs at most 54 for each word of the budget, and 54 more. So
/// the budget bounds the work, whatever the message is. Only the stack is used.
pub fn canonical_into_counted<S: Space, L: Ledger>(
    space: &CountedSpace<'_, S, L>,
    limits: Limits,
    out: &mut [u8],
    reads: &mut Reads<L>,
) -> Result<CanonicalLength, IntoRefusal>
    // The theorem: `result` is `Ok` if and only if the message denotes a value without capabilities within the limits,
    // and `out` has room for its canonical bytes.
    ensures answered { AnsweredInto space.now limits (length out.old) result }
    // If `result` is `Ok`, the canonical bytes are at the beginning of `out`, and the bytes after them are as before.
    ensures written { IfOk result (λ c. WrittenInto space.now limits out.old out.new c) }
    // If `result` is `Err(e)`, the reason that `e` gives is true, and no earlier test refuses the message.
    ensures refused { IfErr result (λ e. RefusedInto space.now limits (length out.old) e) }
    // If `result` is an `Err`, `out` is as it was.
    ensures unchanged { OnErr result (out.new ≡ out.old) }
    // The walk pays at most the budget, also if the message is refused.
    ensures bounded { MatchResult result (λ c. IsBounded limits.budget c.paid c.visits)
        (λ e. IsIntoPaidWithin limits.budget e) }
    // The bytes written are those that `canonical_of` returns for the same message.
    ensures found { IfOk result (λ c. AnswersMessage space.now limits (take c.length out.new) c.paid) }
    ensures past { IfOk result (λ c. drop c.length out.new ≡ drop c.length out.old) }
    ensures inside { IfOk result (λ c. c.length ≤ length out.new) }
    ensures short { IfOk result (λ c. c.length ≤ 8 * (c.paid + 1)) }
    // Read bare under the same limits, the canonical bytes denote the trimmed value of `v`. The two values differ at
    // most in trailing zero words and trailing null slots of structs.
    ensures reads_back { IfOk result (λ c. (v : Value) → IsValueOf space.now limits v
        → ReadsBack (take c.length out.new) limits v) }
    // A walk of the canonical bytes, read bare, pays exactly the cost of the trimmed value of `v`.
    ensures pays { IfOk result (λ c. (v : Value) → IsValueOf space.now limits v
        → PaysItsCost (take c.length out.new) limits v) }
    // The canonical bytes of `v` are also the canonical bytes of the trimmed value of `v`.
    ensures own { IfOk result (λ c. (v : Value) → IsValueOf space.now limits v
        → IsItsOwnForm (take c.length out.new) v) }
    // A value that fits and is in range has the same canonical bytes as `v` if and only if it is the same as `v`
    // (`Same`).
    ensures exactly { IfOk result (λ c. (v : Value) → IsValueOf space.now limits v
        → IsFormExactlyOf (take c.length out.new) v) }
    // All passes together do at most 54 reads and turns of loops for each word paid, and 54 more.
    ensures reads { IfOk result (λ c. reads.new ≤ reads.old + 54 * (c.paid + 1)) }
    // The budget bounds the number of reads and turns, whatever the message and the result are.
    ensures work { reads.new ≤ reads.old + 54 * (limits.budget + 1) }
{
    space.bounds();
    let _budget = limits.budget();
    let _depth = limits.depth();
    write_by_segments(space, limits, out, reads)
}
