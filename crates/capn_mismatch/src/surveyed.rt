//! The measure of a message that was surveyed.

ghost use Rattle.std.specs.Prelude.{◌↔◌};
ghost use Rattle.std.specs.Bool.{IsTrue};
ghost use Rattle.capn_value.specs.Tree.{Tree as Value};
ghost use Rattle.capn_walk.specs.Accepted.{IsValueOf};
ghost use Rattle.capn_walk.specs.Depth.{IsDepth};
ghost use Rattle.capn_walk.specs.Surveyed.{IsSurvey};
ghost use Rattle.capn_canon.specs.Measure.{IsCanonicalOf, IsMeasure};

use crate::only_segment::only_segment;
use capn_canon::{MeasuredBare, SurveyedBare, survey_canonical};
use capn_walk::{Limits, Measured};
use capn_words::Space;

/// Measures the accepted message `space`, given the result of a survey. The measure is the one that
/// [`measure`](capn_canon::measure) returns.
///
/// `surveyed` is the result of [`survey_depth`](capn_walk::survey_depth) for `space` within `limits`. A message of one
/// segment is read once more, in one pass that ends where the message proves not to be canonical. No memory is
/// allocated. (Our own.)
pub fn measure_surveyed<S: Space>(space: &S, limits: Limits, surveyed: Measured) -> MeasuredBare
    requires survey { IsSurvey (S.message space.now) limits surveyed.survey }
    requires depth { IsDepth (S.message space.now) limits surveyed.depth }
    ensures { IsMeasure (S.message space.now) limits result }
{
    let survey = surveyed.survey;
    let is_canonical = is_canonical(space, limits);
    MeasuredBare {
        survey: SurveyedBare {
            paid: survey.paid,
            visits: survey.visits,
            capability: survey.capability,
            is_canonical,
        },
        depth: surveyed.depth,
    }
}

/// Tests whether the accepted message `space` is canonical. A message of one segment is read in one pass.
fn is_canonical<S: Space>(space: &S, limits: Limits) -> bool
    ensures { (v : Value) → IsValueOf (S.message space.now) limits v
        → IsTrue result ↔ IsCanonicalOf (S.message space.now) v }
{
    if space.segments() != 1 {
        return false;
    }
    let bare = only_segment(space);
    let _segments = bare.segments();
    match survey_canonical(&bare, limits) {
        Some(found) => found.is_canonical,
        None => false,
    }
}
