//! The type `CapnFigures`, which has the figures of a message, and the function `figures_of`, which finds them.

ghost use Rattle.std.specs.Prelude.{IsTrue, ◌≡◌, ◌≢◌, ◌↔◌, ◌+◌, ◌*◌, ◌≤◌, length};
ghost use Rattle.std.specs.Prelude.{IfOk, IfErr, IsOk, MatchResult};
ghost use Rattle.capn_words.specs.Message.{most_segments, total};
ghost use Rattle.capn_value.specs.Tree.{Tree as Value};
ghost use Rattle.capn_walk.specs.Accepted.{IsBounded, IsValueOf};
ghost use Rattle.capn_canon.specs.Refusal.{IsPaidWithin, IsUnaccepted};
ghost use Rattle.capn_canon.specs.declared.refusal.Refusal.TheVariants as refusals;
ghost use Rattle.capn_c.specs.Figures.{AreFigures, reported_cap};
ghost use Rattle.capn_c.specs.inner.Told.{AreFiguresFound};

use crate::counted_measure::{count_words, measure_counted};
use capn_canon::{MeasuredBare, Refusal};
use capn_target::counted::{Asked, CountedSpace, CountedTask, Reads};
use capn_walk::Limits;
use capn_words::Space;
use std::sync::ledger::Ledger;

/// The figures that a survey finds for a message.
#[derive(Clone, Copy)]
#[repr(C)]
pub struct CapnFigures {
    /// The number of words of all segments.
    pub words: u32,
    /// The number of segments.
    pub segments: u32,
    /// The number of words that the walk pays.
    pub paid: u32,
    /// The number of visits of the walk.
    pub visits: u32,
    /// The least limit on depth under which the message is accepted. For a null root it is 0.
    pub depth: u32,
    /// 1 if the value has a capability, else 0.
    pub has_capability: u32,
    /// The index of the first capability in preorder, or 0 if the value has none.
    pub capability: u32,
    /// 1 if the message has one segment whose bytes are canonical, else 0.
    pub canonical: u32,
}

/// Returns the figures of the message `space`, whose measure is `measured`. At most two reads and turns of a loop are
/// counted for each segment, and one more.
fn figures_by<S: Space, L: Ledger>(
    space: &CountedSpace<'_, S, L>,
    measured: MeasuredBare,
    reads: &mut Reads<L>,
) -> CapnFigures
    ensures words { result.words ≡ total space.now }
    ensures segments { result.segments ≡ length space.now }
    ensures paid { result.paid ≡ measured.survey.paid }
    ensures visits { result.visits ≡ measured.survey.visits }
    ensures depth { result.depth ≡ measured.depth }
    ensures capability { reported_cap result.has_capability result.capability ≡ measured.survey.capability }
    ensures canonical { (result.canonical ≡ 1) ↔ IsTrue measured.survey.is_canonical }
    ensures flags { (result.has_capability ≤ 1) × (result.canonical ≤ 1) }
    ensures reads { reads.new ≤ reads.old + 2 * most_segments + 1 }
{
    space.bounds();
    let survey = measured.survey;
    let (has_capability, capability) = match survey.capability {
        Some(index) => (1, index),
        None => (0, 0),
    };
    let segments = space.segments(reads);
    CapnFigures {
        words: count_words(space, segments, reads),
        segments,
        paid: survey.paid,
        visits: survey.visits,
        depth: measured.depth,
        has_capability,
        capability,
        canonical: survey.is_canonical as u32,
    }
}

/// Finds the figures of the message `space` within `limits`, and counts reads and turns of loops in `reads`. Returns
/// the result of [`figures_of`].
fn figures_counted<S: Space, L: Ledger>(
    space: &CountedSpace<'_, S, L>,
    limits: Limits,
    reads: &mut Reads<L>,
) -> Result<CapnFigures, Refusal>
    ensures found { IfOk result (λ f. AreFigures space.now limits f) }
    ensures only { (v : Value) → IsValueOf space.now limits v → IsOk result }
    ensures refused { IfErr result (λ e. IsUnaccepted space.now limits e) }
    ensures no_memory { IfErr result (λ e. e ≢ refusals.Memory) }
    ensures bounded { MatchResult result (λ f. IsBounded limits.budget f.paid f.visits)
        (λ e. IsPaidWithin limits.budget e) }
    ensures reads { reads.new ≤ reads.old + 24 * (limits.budget + 1) + 2 * most_segments + 3 }
{
    match measure_counted(space, limits, reads) {
        Ok(measured) => Ok(figures_by(space, measured, reads)),
        Err(stopped) => Err(Refusal::Walk(stopped)),
    }
}

/// The task of `figures_of`: finds the figures of the message that it is run on.
#[derive(Drop)]
struct FiguresTask {
    limits: Limits,
}

impl CountedTask for FiguresTask {
    type Told = Result<CapnFigures, Refusal>;

    ghost use Rattle.std.specs.Prelude.{◌+◌, ◌*◌};
    ghost use Rattle.capn_words.specs.Message.{most_segments};
    ghost use Rattle.capn_c.specs.inner.Told.{AreFiguresFound};

    ghost tells = { λ t m r. AreFiguresFound m t.limits r };

    ghost most = { λ t. 24 * (t.limits.budget + 1) + 2 * most_segments + 3 };

    #[inline(always)]
    fn run<S: Space, L: Ledger>(
        self,
        space: &CountedSpace<'_, S, L>,
        reads: &mut Reads<L>,
    ) -> Result<CapnFigures, Refusal> {
        figures_counted(space, self.limits, reads)
    }
}

/// Returns the figures of the message `space` within `limits`, or the reason why the message is not accepted.
///
/// A message of one segment that is not canonical is walked at most twice. Any other message is walked once. No memory
/// is allocated. `space` is any [`Asked`], so the clause `work` bounds how often the message is read.
#[inline(always)]
pub fn figures_of<M: Asked>(space: M, limits: Limits) -> Result<CapnFigures, Refusal>
    // `space` must allow 24 * (budget + 1) reads and turns of loops for the walks, two for each segment and three more,
    // and one more to start the count.
    requires work { M.allows space (24 * (limits.budget + 1) + 2 * most_segments + 3 + 1) }
    ensures { AreFiguresFound (M.message space) limits result }
{
    space.ask(FiguresTask { limits })
}
