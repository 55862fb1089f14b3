//! The bytes of a message of one segment, and the call `own_canonical`, which returns them if they are canonical.

ghost use Rattle.std.specs.Prelude.{◌≡◌, ◌≢◌, ℕ, ◌^◌, ◌<◌, ◌≤◌, List, [], ◌∷◌, None, length, IfSome, IfNone, IsSome};
ghost use Rattle.capn_words.specs.Message.{IsBare, bytes as bytes_of};
ghost use Rattle.capn_value.specs.Tree.{Tree as Value};
ghost use Rattle.capn_value.specs.FirstCap.{first_cap};
ghost use Rattle.capn_walk.specs.Accepted.{IsValueOf};
ghost use Rattle.capn_layout.specs.Layout.{canon};
ghost use Rattle.capn_canon.specs.Denotes.{AnswersMessage};
ghost use Rattle.capn_canon.specs.inner.OneSegment.{IsOnlySegment};

use crate::canonical_survey::survey_canonical;
use capn_walk::Limits;
use capn_words::{Bare, Place, Space};

/// Canonical bytes that lie in the message itself, and the number of words that the walk pays. (Our own.)
#[derive(Clone, Copy)]
pub struct OwnCanonical<'a> {
    /// The bytes of the only segment.
    pub bytes: &'a [u8],
    /// The number of words paid, at most the budget.
    pub paid: u32,
}

/// Returns the bytes of the only segment of the message `space`, or `None` if `space` has more segments.
fn only_bytes<S: Space>(space: &S) -> Option<&[u8]>
    ensures one { IfSome result (λ bytes. IsOnlySegment (S.message space.now) bytes.now) }
    ensures other { IfNone result (length (S.message space.now) ≢ 1) }
{
    let words = space.words(0).unwrap_or(0);
    if space.segments() != 1 {
        return None;
    }
    Some(space.bytes(Place::ROOT, 8 * words as usize))
}

/// Returns `space` as the bytes of its only segment, which are faster to read, or `None` if there are more segments.
pub(crate) fn alone<S: Space>(space: &S) -> Option<Bare<'_>>
    ensures one { IfSome result (λ words. S.message space.now ≡ words ∷ []) }
    ensures other { IfNone result (length (S.message space.now) ≢ 1) }
{
    match only_bytes(space) {
        Some(bytes) => match Bare::new(bytes) {
            Ok(bare) => Some(bare),
            Err(_) => None,
        },
        None => None,
    }
}

/// Returns `bytes` if, read bare, they are the canonical bytes of their value within `limits`. One pass makes the test.
fn own_words(bytes: &[u8], limits: Limits) -> Option<OwnCanonical<'_>>
    ensures own { IfSome result (λ own. (words : List ℕ) → IsBare bytes.now words
        → AnswersMessage (words ∷ []) limits own.bytes.now own.paid) }
    ensures same { IfSome result (λ own. own.bytes.now ≡ bytes.now) }
    ensures only { (words : List ℕ) (v : Value) → IsBare bytes.now words → IsValueOf (words ∷ []) limits v
        → first_cap v ≡ None → canon v ≡ bytes_of words → IsSome result }
    ensures bounded { IfSome result (λ own. own.paid ≤ limits.budget) }
{
    match Bare::new(bytes) {
        Ok(bare) => {
            let _segments = bare.segments();
            match survey_canonical(&bare, limits) {
                Some(checked) => {
                    if checked.is_canonical {
                        let paid = checked.paid;
                        Some(OwnCanonical { bytes, paid })
                    } else {
                        None
                    }
                }
                None => None,
            }
        }
        Err(_) => None,
    }
}

/// Returns the bytes of the message `space` and the number of words that the walk pays. Returns `None` if the message
/// has several segments, is not accepted within `limits`, or is not canonical. (Our own.)
///
/// The one pass of [`survey_canonical`] makes the test. No memory is allocated, and nothing is copied.
pub fn own_canonical<S: Space>(space: &S, limits: Limits) -> Option<OwnCanonical<'_>>
    // If `result` is `Some`, `bytes` are the canonical bytes of the message, and `paid` is the price.
    ensures own { IfSome result (λ own. AnswersMessage (S.message space.now) limits own.bytes.now own.paid) }
    // If the message has one segment and its bytes are canonical, `result` is `Some`.
    ensures only { (words : List ℕ) (v : Value) → S.message space.now ≡ words ∷ []
        → IsValueOf (words ∷ []) limits v → first_cap v ≡ None → canon v ≡ bytes_of words → IsSome result }
    ensures short { IfSome result (λ own. length own.bytes.now < 2 ^ 34) }
    // The walk pays at most the budget.
    ensures bounded { IfSome result (λ own. own.paid ≤ limits.budget) }
{
    match only_bytes(space) {
        Some(bytes) => own_words(bytes, limits),
        None => None,
    }
}
