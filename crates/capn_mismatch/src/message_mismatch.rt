//! The search for the first reason why a message isn't canonical.

ghost use Rattle.std.specs.Prelude.{◌≡◌, ◌≢◌, ◌↔◌, length, ⊤, IfOk, IfErr, IfSome};
ghost use Rattle.std.specs.Prelude.{IsErr, IsErrOf, MatchResult};
ghost use Rattle.capn_words.specs.Message.{segment_at};
ghost use Rattle.capn_value.specs.Tree.{Tree as Value};
ghost use Rattle.capn_walk.specs.Accepted.{IsValueOf, paid as price};
ghost use Rattle.capn_canon.specs.Measure.{IsCanonicalOf, IsMeasure};
ghost use Rattle.capn_canon.specs.Refusal.{IsUnaccepted};
ghost use Rattle.capn_canon.specs.declared.refusal.Refusal.TheVariants as refusals;
ghost use Rattle.capn_mismatch.specs.Mismatches.{IsMismatch, AnswersCanonical, AnswersSegments};
ghost use Rattle.capn_mismatch.specs.Mismatches.{Compares, HasMismatch, HasCanonicalBytes};
ghost use Rattle.capn_mismatch.specs.inner.Made.{HasCanonicalLength};

use crate::answer::Mismatch;
use crate::capability::first_capability;
use crate::difference::{Difference, first_difference};
use crate::finding::Finding;
use crate::only_segment::only_segment;
use crate::owner::owner;
use capn_canon::{MeasuredBare, Refusal, measure};
use capn_layout::surveyed_layout;
use capn_walk::Limits;
use capn_words::{Bare, Memory, Space};
use std::alloc::Allocator;

/// Tests whether the message `space` is canonical within `limits`. If it is not, finds the first reason: the number of
/// segments, the first capability, the first word that differs from the canonical bytes, or the first word after them.
///
/// `Walk` is returned if the message is not accepted within the limits. `Memory` is returned only for a message of one
/// segment that is not canonical, if an allocation on `alloc` was refused. No other error is returned.
///
/// The search for the word allocates memory for the canonical bytes. A path has at most two numbers for each level of
/// the depth limit. (Our own.)
pub fn mismatch<S: Space, A: Allocator + Copy>(
    alloc: A,
    space: &S,
    limits: Limits,
) -> Result<Mismatch<A>, Refusal>
    // If `result` is `Ok`, `result` has the mismatch of the message.
    ensures found { IfOk result (λ d. IsMismatch (S.message space.now) limits d) }
    // `result` says that the message is canonical if and only if the message is canonical.
    ensures canonical { IfOk result (λ d. (v : Value) → IsValueOf (S.message space.now) limits v
        → AnswersCanonical d ↔ IsCanonicalOf (S.message space.now) v) }
    // `result` says that the message has more than one segment if and only if the number of segments is not 1.
    ensures segments { IfOk result (λ d. AnswersSegments d ↔ (length (S.message space.now) ≢ 1)) }
    // An accepted message gives `Ok`, unless an allocation is refused.
    ensures only { (v : Value) → IsValueOf (S.message space.now) limits v
        → MatchResult result (λ d. ⊤) (λ e. e ≡ refusals.Memory) }
    // Any error is `Memory`, or `Walk` with the stop of the walk of `space`.
    ensures refused { IfErr result (λ e. IsUnaccepted (S.message space.now) limits e) }
    // `Memory` is returned only for a message of one segment that is not canonical.
    ensures memory { IsErrOf result refusals.Memory → HasMismatch (S.message space.now) limits }
{
    let measured = measure(alloc, space, limits)?;
    let finding = finding_of(alloc, space, limits, measured)?;
    Ok(finding.mismatch)
}

/// Finds the mismatch of the message `space`. `measured` is the measure of `space` within `limits`. `Memory` is
/// returned only if an allocation on `alloc` was refused.
pub fn finding_of<S: Space, A: Allocator + Copy>(
    alloc: A,
    space: &S,
    limits: Limits,
    measured: MeasuredBare,
) -> Result<Finding<A>, Memory>
    requires measured { IsMeasure (S.message space.now) limits measured }
    ensures found { IfOk result (λ f. IsMismatch (S.message space.now) limits f.mismatch) }
    ensures canonical { IfOk result (λ f. (v : Value) → IsValueOf (S.message space.now) limits v
        → AnswersCanonical f.mismatch ↔ IsCanonicalOf (S.message space.now) v) }
    ensures segments { IfOk result (λ f. AnswersSegments f.mismatch ↔ (length (S.message space.now) ≢ 1)) }
    ensures made { IfOk result (λ f. IfSome f.length (HasCanonicalLength (S.message space.now) limits)) }
    ensures memory { IsErr result → HasMismatch (S.message space.now) limits }
{
    if measured.survey.is_canonical {
        return Ok(Finding::without_bytes(Mismatch::Canonical));
    }
    let segments = space.segments();
    if segments > 1 {
        return Ok(Finding::without_bytes(Mismatch::Segments(segments)));
    }
    match measured.survey.capability {
        Some(_) => {
            let (index, path) = first_capability(alloc, space, limits)?;
            Ok(Finding::without_bytes(Mismatch::Capability(index, path)))
        }
        None => from_only_segment(alloc, space, limits, measured.survey.paid),
    }
}

/// Finds the mismatch of a message of one segment that is not canonical and has canonical bytes. Only that segment is
/// read.
fn from_only_segment<S: Space, A: Allocator + Copy>(
    alloc: A,
    space: &S,
    limits: Limits,
    paid: u32,
) -> Result<Finding<A>, Memory>
    requires mismatched { HasCanonicalBytes (S.message space.now) limits }
    requires pays { paid ≡ price (S.message space.now) limits }
    ensures found { IfOk result (λ f. IsMismatch (S.message space.now) limits f.mismatch) }
    ensures made { IfOk result (λ f. IfSome f.length (HasCanonicalLength (S.message space.now) limits)) }
{
    let bare = only_segment(space);
    from_canonical(alloc, &bare, limits, paid)
}

/// Lays out the canonical bytes of the message `space` without another survey, and finds the mismatch by comparing
/// `space` with these bytes.
fn from_canonical<S: Space, A: Allocator + Copy>(
    alloc: A,
    space: &S,
    limits: Limits,
    paid: u32,
) -> Result<Finding<A>, Memory>
    requires mismatched { HasCanonicalBytes (S.message space.now) limits }
    requires pays { paid ≡ price (S.message space.now) limits }
    ensures found { IfOk result (λ f. IsMismatch (S.message space.now) limits f.mismatch) }
    ensures made { IfOk result (λ f. IfSome f.length (HasCanonicalLength (S.message space.now) limits)) }
{
    // The prover learns from these two calls how large a message and limits may be.
    let _segments = space.segments();
    let _budget = limits.budget();
    let bytes = surveyed_layout(alloc, space, limits.depth(), paid)?;
    match Bare::new(bytes.as_slice()) {
        Ok(canonical) => {
            let mismatch = apart(alloc, space, &canonical, limits)?;
            let length = Some(bytes.len() as u64);
            Ok(Finding { mismatch, length })
        }
        Err(_) => unreachable!(),
    }
}

/// Finds the mismatch of the message `space` by comparing its words with its `canonical` words.
fn apart<S: Space, A: Allocator + Copy>(
    alloc: A,
    space: &S,
    canonical: &Bare<'_>,
    limits: Limits,
) -> Result<Mismatch<A>, Memory>
    requires compares { Compares (S.message space.now) limits (segment_at (S.message space.now) 0) canonical.now }
    requires differs { segment_at (S.message space.now) 0 ≢ canonical.now }
    ensures { IfOk result (λ d. IsMismatch (S.message space.now) limits d) }
{
    // The prover learns from these four calls how large the messages and limits may be.
    let _segments = space.segments();
    let _other = canonical.segments();
    let _budget = limits.budget();
    let _depth = limits.depth();
    match first_difference(space, canonical) {
        Difference::None => unreachable!(),
        Difference::Word { word, is, other } => {
            let whose = owner(alloc, canonical, limits, word)?;
            Ok(Mismatch::Word {
                word,
                is,
                canonical: other,
                whose,
            })
        }
        Difference::After { word, is } => Ok(Mismatch::After { word, is }),
        Difference::Short { .. } => unreachable!(),
    }
}
