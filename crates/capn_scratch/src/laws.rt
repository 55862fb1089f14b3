//! The laws of `canonical_into_form`, as empty functions.

ghost use Rattle.capn_scratch.specs.Agreement.{MadeAgree, MadeAgreeWithEnough, MadeOfMessagesAgree, WrittenAgree};
ghost use Rattle.capn_scratch.specs.Laws.{FormIsDecided, LackingIsNotHaving, ScratchIsBounded};

use capn_canon::laws::{decision as decision_of_message, denotation};
use std::alloc::Allocator;

/// States that the bytes, the form, the limits, the scratch and the buffer decide the result of `canonical_into_form`.
/// The clauses `written`, `refused` and `unchanged` allow only one result and one content of the buffer.
pub fn decision()
    ensures { FormIsDecided }
{
    decision_of_message();
}

/// States that `NoScratch` is returned only if the scratch has fewer words than the bytes need. The number in
/// `NoScratch` is above the number of words of the scratch. It is at most a number of words that is enough for every
/// input in the form: 0 for bare words, 4,095 for a stream, and 6,144 more than the limit on message words for a packed
/// text.
pub fn enough()
    ensures bounded { ScratchIsBounded }
    ensures lacking { LackingIsNotHaving }
{}

/// States that the other calls that make canonical bytes return what `canonical_into_form` returns, for the same bytes,
/// form and limits. The canonical bytes and the price are the same, or the refusal is the same, with its place, its
/// price and its visits. There are two reservations. `canonicalise` and `canonical_of` may return `Memory`, and
/// `canonical_into_form` may return `NoScratch` or `NoRoom` for what the caller lends.
///
/// The law is about all results that the clauses of the calls allow: the clauses `found` and `refused` of
/// [`canonicalise`](capn_canon::canonicalise) and of [`canonical_of`](capn_canon::canonical_of), and the clauses
/// `written`, `refused` and `unchanged` of [`canonical_into`](capn_canon::canonical_into) and of
/// [`canonical_into_form`](crate::canonical_into_form).
pub fn agreement<A: Allocator>()
    ensures made { MadeAgree A }
    // With enough scratch and a large enough buffer, `Memory` is the only reservation.
    ensures enough { MadeAgreeWithEnough A }
    // The law for a message that is read from the bytes.
    ensures message { MadeOfMessagesAgree A }
    ensures written { WrittenAgree }
{
    decision();
    enough();
    denotation();
}
