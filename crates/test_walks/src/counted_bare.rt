//! Tests of the calls for bare messages that count their reads: each gives the result of the call without a count, and
//! counts within its bound. Also of the test whether bytes are canonical.

use crate::tally::Tally;
use crate::words::bytes_of;
use capn_canon::{
    MeasuredBare, Refusal, SurveyedBare, are_canonical, measure_canonical,
    measure_canonical_counted, survey_bare, survey_bare_counted, survey_bare_of, survey_canonical,
    survey_canonical_counted,
};
use capn_target::counted::{Asked, CountedSpace, CountedTask, Reads};
use capn_walk::{Fault, Limits, Stopped};
use capn_words::{Bare, BareFault, Place, Space};
use std::alloc::Global;
use std::sync::ledger::Ledger;
use std::test::Fail;

/// The results of the three calls that count, in a message of one segment. One of them is chosen by `call`.
#[derive(Clone, Copy, Debug, PartialEq, Eq)]
enum Said {
    Survey(Result<SurveyedBare, Stopped>),
    Canonical(Option<SurveyedBare>),
    Measure(Option<MeasuredBare>),
    /// The message has several segments, or none.
    Others,
}

/// The call that a task makes.
#[derive(Clone, Copy)]
enum Call {
    Survey,
    Canonical,
    Measure,
}

/// The task that makes a call. Its `most` is the greatest of the three bounds.
#[derive(Drop)]
struct BareTask {
    call: Call,
    limits: Limits,
}

impl CountedTask for BareTask {
    type Told = Said;

    ghost use Rattle.std.specs.Prelude.{◌+◌, ◌*◌, ⊤};

    ghost tells = { λ t m r. ⊤ };

    ghost most = { λ t. 24 * (t.limits.budget + 1) + 1 };

    fn run<S: Space, L: Ledger>(
        self,
        space: &CountedSpace<'_, S, L>,
        reads: &mut Reads<L>,
    ) -> Said {
        if space.segments(reads) != 1 {
            return Said::Others;
        }
        match self.call {
            Call::Survey => Said::Survey(survey_bare_counted(space, self.limits, reads)),
            Call::Canonical => Said::Canonical(survey_canonical_counted(space, self.limits, reads)),
            Call::Measure => Said::Measure(measure_canonical_counted(space, self.limits, reads)),
        }
    }
}

/// Returns the result of a counted call, and how often it read the message. Two more reads are those of the task and of
/// the start of the count.
fn told(space: &Tally<'_, Bare<'_>>, call: Call, limits: Limits) -> (Said, u64) {
    let _before = space.taken();
    let told = space.ask(BareTask { call, limits });
    (told, space.taken())
}

/// Tests whether the calls that count have the results of those that don't, for the bare message of `words` within
/// `budget`, and read it no more often than their bounds for that budget say.
fn is_told(alloc: Global, words: &[u64], budget: u8) -> Result<bool, Fail> {
    let bytes = bytes_of(alloc, words)?;
    let Ok(bare) = Bare::new(bytes.as_slice()) else {
        return Err(Fail::new("no words"));
    };
    let limits = Limits::new(8_388_608, budget as u32, 64).unwrap_or(Limits::usual());
    let most = 24 * (budget as u64 + 1) + 2;
    let most_of_pass = 10 * budget as u64 + 8 + 2;
    let space = Tally::of(&bare);
    let (survey, surveyed) = told(&space, Call::Survey, limits);
    let (canonical, read) = told(&space, Call::Canonical, limits);
    let (measure, measured) = told(&space, Call::Measure, limits);
    let _segments = bare.segments();
    let is_same = survey == Said::Survey(survey_bare(alloc, &bare, limits))
        && survey == Said::Survey(survey_bare_of(&bare, limits))
        && canonical == Said::Canonical(survey_canonical(&bare, limits))
        && measure == Said::Measure(measure_canonical(&bare, limits));
    Ok(is_same && surveyed <= most && read <= most_of_pass && measured <= most_of_pass)
}

/// A struct of two slots, each a struct of one word. The walk pays 7 words, in three visits.
const PAIR: [u64; 5] = [0x2_0000_0000_0000, 0x1_0000_0004, 0x1_0000_0004, 7, 9];

/// Canonical bytes are read in one pass. Bytes that are not canonical are surveyed after it.
#[test]
fn bare_messages_with_and_without_a_count(rt: HostRuntime) -> Result<(), Fail> {
    assert!(rt; is_told(rt.alloc(), &PAIR, 7)?);
    // The last word is not reached, or the budget ends before the last struct.
    assert!(rt; is_told(rt.alloc(), &[0xffff_fffc, 5], 1)?);
    assert!(rt; is_told(rt.alloc(), &PAIR, 6)?);
    // The last word of a struct is zero, and a slot has a capability.
    assert!(rt; is_told(rt.alloc(), &[0x2_0000_0000, 5, 0], 9)?);
    assert!(rt; is_told(rt.alloc(), &[0x1_0000_0000_0000, 0x2_0000_0003], 9)?);
    // A null root, and no root.
    assert!(rt; is_told(rt.alloc(), &[0], 1)?);
    assert!(rt; is_told(rt.alloc(), &[], 1)?);
    Ok(())
}

/// The figures of `PAIR`, and of the message without its last word.
#[test]
fn figures_of_a_bare_message(rt: HostRuntime) -> Result<(), Fail> {
    let bytes = bytes_of(rt.alloc(), &PAIR)?;
    let Ok(bare) = Bare::new(bytes.as_slice()) else {
        return Err(Fail::new("no words"));
    };
    let want = SurveyedBare {
        paid: 7,
        visits: 3,
        capability: None,
        is_canonical: true,
    };
    assert!(rt; survey_bare_of(&bare, Limits::usual()) == Ok(want));
    let Ok(short) = Bare::new(&bytes.as_slice()[..32]) else {
        return Err(Fail::new("no words"));
    };
    let stopped = Stopped {
        fault: Fault::Range,
        place: Place {
            segment: 0,
            word: 2,
        },
        paid: 5,
        visits: 3,
    };
    assert!(rt; survey_bare_of(&short, Limits::usual()) == Err(stopped));
    Ok(())
}

/// Returns whether the bytes of `words` are canonical within `budget`.
fn judged(alloc: Global, words: &[u64], budget: u32) -> Result<Result<bool, Refusal>, Fail> {
    let bytes = bytes_of(alloc, words)?;
    let limits = Limits::new(8_388_608, budget, 64).unwrap_or(Limits::usual());
    Ok(are_canonical(bytes.as_slice(), limits))
}

#[test]
fn canonical_bytes(rt: HostRuntime) -> Result<(), Fail> {
    assert!(rt; judged(rt.alloc(), &PAIR, 7)? == Ok(true));
    assert!(rt; judged(rt.alloc(), &[0], 1)? == Ok(true));
    assert!(rt; judged(rt.alloc(), &[0xffff_fffc], 1)? == Ok(true));
    // A zero word at the end of a struct, and a word after the value.
    assert!(rt; judged(rt.alloc(), &[0x2_0000_0000, 5, 0], 9)? == Ok(false));
    assert!(rt; judged(rt.alloc(), &[0xffff_fffc, 5], 9)? == Ok(false));
    Ok(())
}

/// Bytes are refused if they are not whole words, or the walk is refused, or the value has a capability.
#[test]
fn bytes_that_are_neither(rt: HostRuntime) -> Result<(), Fail> {
    let rest = Refusal::Bare(BareFault::NotWhole(9));
    assert!(rt; are_canonical(&[0; 9], Limits::usual()) == Err(rest));
    let slots = [0x2_0000_0000_0000, 0x9_0000_0003, 0x2_0000_0003];
    assert!(rt; judged(rt.alloc(), &slots, 9)? == Err(Refusal::Capability(9)));
    let stopped = Stopped {
        fault: Fault::OverBudget,
        place: Place {
            segment: 0,
            word: 2,
        },
        paid: 5,
        visits: 3,
    };
    assert!(rt; judged(rt.alloc(), &PAIR, 6)? == Err(Refusal::Walk(stopped)));
    let empty = Stopped {
        fault: Fault::NoRoot,
        place: Place::ROOT,
        paid: 0,
        visits: 0,
    };
    assert!(rt; judged(rt.alloc(), &[], 6)? == Err(Refusal::Walk(empty)));
    Ok(())
}
