//! Tests of the walks that count their reads: each gives the result of the call without a count, and counts within its
//! bound.

use crate::counted_calls::doubling;
use crate::indexes::Spans;
use crate::shared_lists::shared_lists;
use crate::tally::Tally;
use capn_stream::first;
use capn_target::counted::{Asked, CountedSpace, CountedTask, CountedWriter, Reads};
use capn_value::show;
use capn_walk::{
    Indexed, Limits, Measured, Stopped, Surveyed, Walked, index_into_counted, index_into_form,
    survey, survey_counted, survey_depth, survey_depth_counted, walk, walk_counted,
};
use capn_words::Space;
use std::alloc::Global;
use std::sync::ledger::Ledger;
use std::test::Fail;

/// The task that surveys a message. Its `most` is the bound of `survey_counted`.
#[derive(Drop)]
struct SurveyTask {
    limits: Limits,
}

impl CountedTask for SurveyTask {
    type Told = Result<Surveyed, Stopped>;

    ghost use Rattle.std.specs.Prelude.{◌+◌, ◌*◌, ⊤};

    ghost tells = { λ t m r. ⊤ };

    ghost most = { λ t. 14 * (t.limits.budget + 1) + 1 };

    fn run<S: Space, L: Ledger>(
        self,
        space: &CountedSpace<'_, S, L>,
        reads: &mut Reads<L>,
    ) -> Result<Surveyed, Stopped> {
        survey_counted(space, self.limits, reads)
    }
}

/// The task that surveys a message and finds its depth.
#[derive(Drop)]
struct DepthTask {
    limits: Limits,
}

impl CountedTask for DepthTask {
    type Told = Result<Measured, Stopped>;

    ghost use Rattle.std.specs.Prelude.{◌+◌, ◌*◌, ⊤};

    ghost tells = { λ t m r. ⊤ };

    ghost most = { λ t. 14 * (t.limits.budget + 1) + 1 };

    fn run<S: Space, L: Ledger>(
        self,
        space: &CountedSpace<'_, S, L>,
        reads: &mut Reads<L>,
    ) -> Result<Measured, Stopped> {
        survey_depth_counted(space, self.limits, reads)
    }
}

/// The task that reads the value of a message.
#[derive(Drop)]
struct WalkTask {
    alloc: Global,
    limits: Limits,
}

impl CountedTask for WalkTask {
    type Told = Result<Walked, Stopped>;

    ghost use Rattle.std.specs.Prelude.{◌+◌, ◌*◌, ⊤};

    ghost tells = { λ t m r. ⊤ };

    ghost most = { λ t. 12 * (t.limits.budget + 1) };

    fn run<S: Space, L: Ledger>(
        self,
        space: &CountedSpace<'_, S, L>,
        reads: &mut Reads<L>,
    ) -> Result<Walked, Stopped> {
        walk_counted(self.alloc, space, self.limits, reads)
    }
}

/// The task that writes the spans of a message's entries.
#[derive(Drop)]
struct IndexTask {
    limits: Limits,
}

impl CountedWriter for IndexTask {
    type Told = Result<Indexed, Stopped>;

    type Item = u32;

    ghost use Rattle.std.specs.Prelude.{◌+◌, ◌*◌, ⊤};

    ghost tells = { λ t m old new r. ⊤ };

    ghost most = { λ t. 13 * (t.limits.budget + 1) + 1 };

    fn run<S: Space, L: Ledger>(
        self,
        space: &CountedSpace<'_, S, L>,
        out: &mut [u32],
        reads: &mut Reads<L>,
    ) -> Result<Indexed, Stopped> {
        index_into_counted(space, self.limits, &Spans, out, reads)
    }
}

/// The number of times that a call read a message, and the greatest number allowed. The first read begins the count.
#[derive(Clone, Copy, Debug)]
struct Count {
    reads: u64,
    most: u64,
}

impl Count {
    /// Returns the count of `reads`, of at most `each` for each of `visits`, one more, and the one that begins it.
    fn of_visits(reads: u64, each: u64, visits: u32) -> Count {
        Count {
            reads,
            most: each.wrapping_mul(visits as u64).wrapping_add(2),
        }
    }

    fn is_within(self) -> bool {
        self.reads <= self.most
    }

    /// Tests whether the call read the message at least a third as often as it may.
    fn is_near(self) -> bool {
        self.is_within() && self.most <= self.reads.saturating_mul(3)
    }
}

/// Returns the count of `survey_counted`, or `None` if its result is not that of `survey`.
fn surveyed<S: Space>(alloc: Global, space: &Tally<'_, S>, limits: Limits) -> Option<Count> {
    let _before = space.taken();
    let told = space.ask(SurveyTask { limits });
    let reads = space.taken();
    let visits = match told {
        Ok(surveyed) => surveyed.visits,
        Err(stopped) => stopped.visits,
    };
    if told != survey(alloc, space, limits) {
        return None;
    }
    Some(Count::of_visits(reads, 14, visits))
}

/// Returns the count of `survey_depth_counted`, or `None` if its result is not that of `survey_depth`.
fn measured<S: Space>(alloc: Global, space: &Tally<'_, S>, limits: Limits) -> Option<Count> {
    let _before = space.taken();
    let told = space.ask(DepthTask { limits });
    let reads = space.taken();
    let visits = match told {
        Ok(measured) => measured.survey.visits,
        Err(stopped) => stopped.visits,
    };
    if told != survey_depth(alloc, space, limits) {
        return None;
    }
    Some(Count::of_visits(reads, 14, visits))
}

/// Tests whether two results of walks have equal figures, and values with equal texts or equal stops.
fn are_same(alloc: Global, one: &Result<Walked, Stopped>, other: &Result<Walked, Stopped>) -> bool {
    match (one, other) {
        (Ok(one), Ok(other)) => {
            let is_same = match (show(alloc, &one.tree), show(alloc, &other.tree)) {
                (Ok(one), Ok(other)) => one.as_str() == other.as_str(),
                _ => false,
            };
            is_same && one.paid == other.paid && one.visits == other.visits
        }
        (Err(one), Err(other)) => *one == *other,
        _ => false,
    }
}

/// Returns the count of `walk_counted`, or `None` if its result is not that of `walk`.
fn walked<S: Space>(alloc: Global, space: &Tally<'_, S>, limits: Limits) -> Option<Count> {
    let _before = space.taken();
    let told = space.ask(WalkTask { alloc, limits });
    let reads = space.taken();
    let (paid, visits) = match &told {
        Ok(walked) => (walked.paid, walked.visits),
        Err(stopped) => (stopped.paid, stopped.visits),
    };
    let other = walk(alloc, space, limits);
    if !are_same(alloc, &told, &other) {
        return None;
    }
    let count = Count::of_visits(reads, 10, visits);
    let most = count.most.wrapping_add(2 * paid as u64);
    Some(Count { most, ..count })
}

/// Returns the count of `index_into_counted`, or `None` if its result or its entries are not those of
/// `index_into_form`.
fn indexed<S: Space>(space: &Tally<'_, S>, limits: Limits) -> Option<Count> {
    let mut room = [96u32; 9];
    let mut other = room;
    let _before = space.taken();
    let told = space.ask_into(IndexTask { limits }, &mut room);
    let reads = space.taken();
    let visits = match told {
        Ok(indexed) => indexed.visits,
        Err(stopped) => stopped.visits,
    };
    if told != index_into_form(space, limits, &Spans, &mut other) || room != other {
        return None;
    }
    Some(Count::of_visits(reads, 13, visits))
}

/// Returns the counts of the four calls over the frame `bytes` within `budget`, in the order of their functions here.
fn counts(alloc: Global, bytes: &[u8], budget: u32) -> Result<[Option<Count>; 4], Fail> {
    let Ok((message, _taken)) = first(alloc, bytes, 8_388_608) else {
        return Err(Fail::new("no frame"));
    };
    let limits = Limits::new(8_388_608, budget, 63).unwrap_or(Limits::usual());
    let space = Tally::of(&message);
    Ok([
        surveyed(alloc, &space, limits),
        measured(alloc, &space, limits),
        walked(alloc, &space, limits),
        indexed(&space, limits),
    ])
}

/// Tests whether each of the four calls over the frame `bytes` has the result without a count, and a count within its
/// bound.
fn are_within(alloc: Global, bytes: &[u8], budget: u32) -> Result<bool, Fail> {
    let mut are_within = true;
    for count in counts(alloc, bytes, budget)? {
        are_within = are_within && count.is_some_and(|count| count.is_within());
    }
    Ok(are_within)
}

/// A message is accepted, or refused for its budget, or has no root.
#[test]
fn each_walk_gives_the_result_without_a_count(rt: HostRuntime) -> Result<(), Fail> {
    let few = doubling(rt.alloc(), 2)?;
    let many = doubling(rt.alloc(), 11)?;
    assert!(rt; are_within(rt.alloc(), few.as_slice(), 1_000)?);
    assert!(rt; are_within(rt.alloc(), many.as_slice(), 7)?);
    assert!(rt; are_within(rt.alloc(), &[0; 8], 7)?);
    Ok(())
}

/// The more is read for each visit, the nearer is the bound. Each of these lists is behind a landing pad of two words.
#[test]
fn each_walk_may_come_near_its_bound(rt: HostRuntime) -> Result<(), Fail> {
    let bytes = shared_lists(rt.alloc())?;
    for count in counts(rt.alloc(), bytes.as_slice(), 1_000)? {
        assert!(rt; count.is_some_and(|count| count.is_near()), "{count:?}");
    }
    Ok(())
}
