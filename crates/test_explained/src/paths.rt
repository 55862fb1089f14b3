//! Tests of the paths to slots of messages: to the slot at which a walk stops, or to the slot of a visit.

use crate::words::bytes_of;
use capn_path::{path_of_refusal, path_of_stop, path_of_stop_counted, path_of_visit};
use capn_target::counted::{Asked, CountedSpace, CountedTask, Reads};
use capn_walk::{Fault, Limits, Stopped, survey};
use capn_words::{Bare, Memory, Place, Space};
use std::alloc::Global;
use std::sync::ledger::Ledger;
use std::test::Fail;

/// A struct whose second slot has two rows of a word and a slot. The last of these slots points out of its segment.
const ROWS: [u64; 8] = [
    0x2_0000_0000_0000,
    0,
    0x27_0000_0001,
    0x1_0001_0000_0008,
    5,
    0,
    6,
    0x1_0000_0014,
];

/// A struct whose slot has three pointers, the last of which is reserved.
const LINKS: [u64; 5] = [0x1_0000_0000_0000, 0x1e_0000_0001, 0, 0, 7];

/// A struct whose only slot points to the struct itself.
const CIRCLE: [u64; 1] = [0x1_0000_ffff_fffc];

/// A struct whose two slots point to the same struct. The slot of that struct points to a struct of one word.
const SHARED: [u64; 5] = [
    0x2_0000_0000_0000,
    0x1_0000_0000_0004,
    0x1_0000_0000_0000,
    0x1_0000_0000,
    9,
];

/// A capability at the root.
const CAPABILITY: [u64; 1] = [0x7_0000_0003];

/// Returns the place of `word` in the first segment.
fn at(word: u32) -> Place {
    Place { segment: 0, word }
}

/// Tests whether the walk of a message stops with the fault, at the word and after the visits of `want`, and `path`
/// leads to that word.
fn is_refused(
    alloc: Global,
    words: &[u64],
    limits: Limits,
    want: (Fault, u32, u32),
    path: &[u32],
) -> Result<bool, Fail> {
    let bytes = bytes_of(alloc, words)?;
    let Ok(bare) = Bare::new(bytes.as_slice()) else {
        return Ok(false);
    };
    match path_of_refusal(alloc, &bare, limits) {
        Ok(Some(refused)) => {
            let stopped = refused.stopped;
            let is_there = (stopped.fault, stopped.place, stopped.visits)
                == (want.0, at(want.1), want.2);
            Ok(is_there && refused.path.as_slice() == path)
        }
        _ => Ok(false),
    }
}

#[test]
fn the_path_to_a_refusal(rt: HostRuntime) -> Result<(), Fail> {
    let usual = Limits::usual();
    let few = Limits::new(5, 10, 64).unwrap_or(usual);
    let deep = [0u32; 64];
    assert!(rt; is_refused(rt.alloc(), &ROWS, usual, (Fault::Range, 7, 5), &[1, 1, 0])?);
    assert!(rt; is_refused(rt.alloc(), &LINKS, usual, (Fault::Reserved, 4, 5), &[0, 2])?);
    assert!(rt; is_refused(rt.alloc(), &CIRCLE, usual, (Fault::TooDeep, 0, 65), &deep)?);
    assert!(rt; is_refused(rt.alloc(), &SHARED, few, (Fault::OverBudget, 3, 5), &[1, 0])?);
    assert!(rt; is_refused(rt.alloc(), &CAPABILITY, usual, (Fault::RootKind, 0, 1), &[])?);
    assert!(rt; is_refused(rt.alloc(), &[], usual, (Fault::NoRoot, 0, 0), &[])?);
    Ok(())
}

#[test]
fn no_refusal(rt: HostRuntime) -> Result<(), Fail> {
    let bytes = bytes_of(rt.alloc(), &SHARED)?;
    let Ok(bare) = Bare::new(bytes.as_slice()) else {
        return Err(Fail::new("no words"));
    };
    let told = path_of_refusal(rt.alloc(), &bare, Limits::usual());
    assert!(rt; matches!(told, Ok(None)));
    Ok(())
}

/// The task that finds the path to a stop. Its `most` is the bound of `path_of_stop_counted`.
#[derive(Drop)]
struct PathTask {
    alloc: Global,
    stopped: Stopped,
}

impl CountedTask for PathTask {
    type Told = Result<Vec<u32>, Memory>;

    ghost use Rattle.std.specs.Prelude.{◌*◌, ⊤};

    ghost tells = { λ t m r. ⊤ };

    ghost most = { λ t. 10 * t.stopped.visits };

    fn run<S: Space, L: Ledger>(
        self,
        space: &CountedSpace<'_, S, L>,
        reads: &mut Reads<L>,
    ) -> Result<Vec<u32>, Memory> {
        path_of_stop_counted(self.alloc, space, Limits::usual(), self.stopped, reads)
    }
}

/// Tests whether `path` leads to the slot at which the walk of a message stops, also with counted reads.
fn leads_to_stop(alloc: Global, words: &[u64], path: &[u32]) -> Result<bool, Fail> {
    let bytes = bytes_of(alloc, words)?;
    let Ok(bare) = Bare::new(bytes.as_slice()) else {
        return Ok(false);
    };
    let Err(stopped) = survey(alloc, &bare, Limits::usual()) else {
        return Ok(false);
    };
    let counted = (&bare).ask(PathTask { alloc, stopped });
    match (
        path_of_stop(alloc, &bare, Limits::usual(), stopped),
        counted,
    ) {
        (Ok(found), Ok(counted)) => Ok(found.as_slice() == path && counted.as_slice() == path),
        _ => Ok(false),
    }
}

/// The path to a slot of a row is found. For a message without a root, the path is empty.
#[test]
fn the_path_to_a_stop(rt: HostRuntime) -> Result<(), Fail> {
    let alloc = rt.alloc();
    let leads = leads_to_stop(alloc, &ROWS, &[1, 1, 0])? && leads_to_stop(alloc, &[], &[])?;
    assert!(rt; leads);
    Ok(())
}

/// Tests whether the walk of a message visits the slot at `word` after `number` other visits, and `path` leads to that
/// slot.
fn is_visited(
    alloc: Global,
    words: &[u64],
    number: u32,
    word: u32,
    path: &[u32],
) -> Result<bool, Fail> {
    let bytes = bytes_of(alloc, words)?;
    let Ok(bare) = Bare::new(bytes.as_slice()) else {
        return Ok(false);
    };
    match path_of_visit(alloc, &bare, Limits::usual(), number) {
        Ok(Some(visited)) => Ok(visited.place == at(word) && visited.path.as_slice() == path),
        _ => Ok(false),
    }
}

#[test]
fn the_path_to_each_visit(rt: HostRuntime) -> Result<(), Fail> {
    assert!(rt; is_visited(rt.alloc(), &SHARED, 0, 0, &[])?);
    assert!(rt; is_visited(rt.alloc(), &SHARED, 1, 1, &[0])?);
    assert!(rt; is_visited(rt.alloc(), &SHARED, 2, 3, &[0, 0])?);
    assert!(rt; is_visited(rt.alloc(), &SHARED, 3, 2, &[1])?);
    assert!(rt; is_visited(rt.alloc(), &SHARED, 4, 3, &[1, 0])?);
    assert!(rt; is_visited(rt.alloc(), &ROWS, 3, 5, &[1, 0, 0])?);
    Ok(())
}

#[test]
fn no_such_visit(rt: HostRuntime) -> Result<(), Fail> {
    let bytes = bytes_of(rt.alloc(), &SHARED)?;
    let Ok(bare) = Bare::new(bytes.as_slice()) else {
        return Err(Fail::new("no words"));
    };
    let after = path_of_visit(rt.alloc(), &bare, Limits::usual(), 5);
    assert!(rt; matches!(after, Ok(None)));
    let Ok(none) = Bare::new(&[]) else {
        return Err(Fail::new("no words"));
    };
    let first = path_of_visit(rt.alloc(), &none, Limits::usual(), 0);
    assert!(rt; matches!(first, Ok(None)));
    Ok(())
}
