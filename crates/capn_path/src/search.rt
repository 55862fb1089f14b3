//! The search for a slot among the visits of a walk.

ghost use Rattle.std.specs.Prelude.{◌≡◌, ℕ, ◌+◌, ◌*◌, ◌<◌, ◌≤◌, IfOk, IfSome, IfNone, None, OnErr, length};
ghost use Rattle.std.specs.Prelude.{vec_capacity, vec_len};
ghost use Rattle.capn_words.specs.Message.{segment_at, IsMessage, IsPlace};
ghost use Rattle.capn_target.specs.Shapes.{IsContent, RowsFit, extent};
ghost use Rattle.capn_target.specs.Target.{target};
ghost use Rattle.capn_walk.specs.Accepted.{root};
ghost use Rattle.capn_walk.specs.Visits.{slots, places, row_places};
ghost use Rattle.capn_path.specs.Finds.{IsFirstFind, IsWithoutFind};
ghost use Rattle.capn_path.specs.Steps.{AreNumbers, AreRowNumbers, AreNumbersIn};
ghost use Rattle.capn_path.specs.inner.Seeks.{Seeks, SeeksBelow};
ghost use Rattle.capn_path.specs.inner.Tested.{IsLowered, IsSpared};

use crate::aim::Aim;
use capn_target::counted::{CountedSpace, Reads, count_reads, resolve};
use capn_target::{Shape, Target};
use capn_words::{Memory, Place, Space, Width};
use std::alloc::Allocator;
use std::marker::Brand;
use std::sync::ledger::{Blank, Ledger};

/// Searches the slots of the message `space` for the first slot at which `aim` finds something. The slots are visited
/// in preorder from the root, at most `depth` objects deep. Returns the find and the path to the slot, or `None` if
/// nothing is found.
///
/// Each visit reads at most four words, in addition to the reads of `aim`. No prices are paid, and no budget applies.
/// `Memory` is returned only if an allocation for the path on `alloc` was refused. The path has at most two numbers for
/// each level of `depth`. (Our own.)
pub fn seek<S: Space, G: Aim, A: Allocator + Copy>(
    alloc: A,
    space: &S,
    depth: u32,
    aim: G,
) -> Result<Option<(G::Found, Vec<u32, A>)>, Memory>
    requires root { 0 < length (segment_at (S.message space.now) 0) }
    // If `result` has a find, the find is the first among the visits.
    ensures found { IfOk result (λ r. IfSome r
        (λ x. IsFirstFind (S.message space.now) G.finds G.next depth root aim x.1.items x.0)) }
    // If `result` has no find, nothing is found at any visit.
    ensures none { IfOk result (λ r. IfNone r (IsWithoutFind (S.message space.now) G.finds G.next depth root aim)) }
    // If `result` is an error, nothing was found at the root's slot, and `depth` is above 0. The path to the root's
    // slot needs no allocation.
    ensures memory { OnErr result ((G.finds aim root (target (S.message space.now) root) ≡ None) × (0 < depth)) }
{
    seek_with_ledger::<S, G, A, Brand>(alloc, space, depth, aim, Blank::new(1))
}

/// Searches the slots of the message `space` as [`seek`] does, with a count in the new ledger `blank`.
#[inline(always)]
fn seek_with_ledger<S: Space, G: Aim, A: Allocator + Copy, L: Ledger>(
    alloc: A,
    space: &S,
    depth: u32,
    aim: G,
    blank: Blank,
) -> Result<Option<(G::Found, Vec<u32, A>)>, Memory>
    requires name { blank.name ≡ L.name }
    requires parts { blank.parts ≡ L.parts }
    requires one { 0 < blank.parts }
    requires root { 0 < length (segment_at (S.message space.now) 0) }
    ensures found { IfOk result (λ r. IfSome r
        (λ x. IsFirstFind (S.message space.now) G.finds G.next depth root aim x.1.items x.0)) }
    ensures none { IfOk result (λ r. IfNone r (IsWithoutFind (S.message space.now) G.finds G.next depth root aim)) }
    ensures memory { OnErr result ((G.finds aim root (target (S.message space.now) root) ≡ None) × (0 < depth)) }
{
    let (space, mut reads) = count_reads::<S, L>(space, blank);
    seek_counted(alloc, &space, depth, aim, &mut reads)
}

/// Searches the slots of the message `space` as [`seek`] does, and counts reads and turns of loops in `reads`. The
/// count grows by at most ten for each test of a slot.
#[inline(always)]
pub fn seek_counted<S: Space, G: Aim, A: Allocator + Copy, L: Ledger>(
    alloc: A,
    space: &CountedSpace<'_, S, L>,
    depth: u32,
    aim: G,
    reads: &mut Reads<L>,
) -> Result<Option<(G::Found, Vec<u32, A>)>, Memory>
    requires root { 0 < length (segment_at space.now 0) }
    ensures found { IfOk result (λ r. IfSome r
        (λ x. IsFirstFind space.now G.finds G.next depth root aim x.1.items x.0)) }
    ensures none { IfOk result (λ r. IfNone r (IsWithoutFind space.now G.finds G.next depth root aim)) }
    ensures memory { OnErr result ((G.finds aim root (target space.now root) ≡ None) × (0 < depth)) }
    // `left` is any number of tests that an aim leaves, which falls with each test that finds nothing. The count grows
    // by at most ten for each test that `aim` leaves, plus eight in all.
    ensures reads { (left : G → ℕ) → IsLowered G.finds G.next left → reads.new ≤ reads.old + 10 * left aim + 8 }
{
    space.bounds();
    let mut aim = aim;
    let mut path = Vec::new(alloc);
    match seek_slot(
        space.again(),
        Place::ROOT,
        depth,
        &mut aim,
        &mut path,
        reads,
    )? {
        Some(found) => Ok(Some((found, path))),
        None => Ok(None),
    }
}

/// Tests the slot at `at` and all slots below it, at most `depth` objects deep, up to the first find of `aim`. The old
/// `path` leads to the slot at `at`. If something is found, the new `path` leads to the slot of the find.
#[cycle(seek)]
fn seek_slot<S: Space, G: Aim, A: Allocator, L: Ledger>(
    space: CountedSpace<'_, S, L>,
    at: Place,
    depth: u32,
    aim: &mut G,
    path: &mut Vec<u32, A>,
    reads: &mut Reads<L>,
) -> Result<Option<G::Found>, Memory>
    requires place { IsPlace space at }
    ensures found { IfOk result (λ r. (base : ℕ) → Seeks space.entry G.finds G.next base depth at
        aim.old aim.new path.old.items path.new.items r) }
    ensures grown { vec_capacity path.old ≤ vec_capacity path.new }
    ensures room { OnErr result (vec_capacity path.old < vec_len path.old + 2 * depth) }
    ensures below { OnErr result (G.finds aim.old at (target space.entry at) ≡ None) }
    // A test counts at most eight reads. The turns of the two loops above it count two more.
    ensures passed { IfOk result (λ r. IfNone r
        (IsSpared G.finds G.next 2 aim.old aim.new reads.old reads.new)) }
    ensures reads { (left : G → ℕ) → IsLowered G.finds G.next left
        → reads.new ≤ reads.old + 10 * left aim.old + 8 }
{
    let named = resolve(&space, at, reads);
    match aim.test(at, named) {
        Some(found) => return Ok(Some(found)),
        None => {}
    }
    match named {
        Ok(target) => match target {
            Target::Nil => Ok(None),
            Target::Cap(_) => Ok(None),
            Target::Content {
                segment,
                start,
                shape,
                pads: _,
            } => {
                if depth == 0 {
                    return Ok(None);
                }
                let start = Place {
                    segment,
                    word: start,
                };
                let found = seek_object(space, start, shape, depth - 1, aim, path, reads)?;
                Ok(found)
            }
        },
        Err(_) => Ok(None),
    }
}

/// Looks for the first find in an object of `shape` whose content starts at `start`.
#[cycle(seek)]
fn seek_object<S: Space, G: Aim, A: Allocator, L: Ledger>(
    space: CountedSpace<'_, S, L>,
    start: Place,
    shape: Shape,
    depth: u32,
    aim: &mut G,
    path: &mut Vec<u32, A>,
    reads: &mut Reads<L>,
) -> Result<Option<G::Found>, Memory>
    requires content { IsContent space start (extent shape) }
    requires rows { RowsFit shape }
    ensures found { IfOk result (λ r. (base : ℕ) → SeeksBelow space.entry G.finds G.next base depth
        (slots start.segment start.word shape) (AreNumbersIn shape) aim.old aim.new path.old.items path.new.items r) }
    ensures grown { vec_capacity path.old ≤ vec_capacity path.new }
    ensures room { OnErr result (vec_capacity path.old < vec_len path.old + 2 * depth + 2) }
    ensures passed { IfOk result (λ r. IfNone r
        (IsSpared G.finds G.next 0 aim.old aim.new reads.old reads.new)) }
    ensures reads { (left : G → ℕ) → IsLowered G.finds G.next left
        → reads.new ≤ reads.old + 10 * left aim.old + 10 }
{
    space.bounds();
    let segment = start.segment;
    match shape {
        Shape::Node { words, slots } => {
            let first = Place {
                segment,
                word: start.word + words as u32,
            };
            seek_slots(space, first, slots as u32, depth, aim, path, reads)
        }
        Shape::Many { width, count } => match width {
            Width::Link => seek_slots(space, start, count, depth, aim, path, reads),
            _ => Ok(None),
        },
        Shape::Rows {
            count,
            words,
            slots,
            span: _,
        } => {
            if slots == 0 {
                return Ok(None);
            }
            let first = Place {
                segment,
                word: start.word + 1,
            };
            seek_rows(space, first, count, words, slots, depth, aim, path, reads)
        }
    }
}

/// Looks for the first find in `count` consecutive slots from `first` on. In `path` these slots are numbered from 0.
#[cycle(seek)]
fn seek_slots<S: Space, G: Aim, A: Allocator, L: Ledger>(
    space: CountedSpace<'_, S, L>,
    first: Place,
    count: u32,
    depth: u32,
    aim: &mut G,
    path: &mut Vec<u32, A>,
    reads: &mut Reads<L>,
) -> Result<Option<G::Found>, Memory>
    requires message { IsMessage space }
    requires inside { first.word + count ≤ length (segment_at space first.segment) }
    ensures found { IfOk result (λ r. (base : ℕ) → SeeksBelow space.entry G.finds G.next base depth
        (places first.segment first.word count) AreNumbers aim.old aim.new path.old.items path.new.items r) }
    ensures grown { vec_capacity path.old ≤ vec_capacity path.new }
    ensures room { OnErr result (vec_capacity path.old < vec_len path.old + 2 * depth + 1) }
    ensures passed { IfOk result (λ r. IfNone r
        (IsSpared G.finds G.next count aim.old aim.new reads.old reads.new)) }
    ensures reads { (left : G → ℕ) → IsLowered G.finds G.next left
        → reads.new ≤ reads.old + 10 * left aim.old + 9 }
{
    for i in 0..count {
        reads.tick();
        let Ok(()) = path.push(i) else {
            return Err(Memory);
        };
        let at = Place {
            segment: first.segment,
            word: first.word + i,
        };
        match seek_slot(space.again(), at, depth, aim, path, reads)? {
            Some(found) => return Ok(Some(found)),
            None => {}
        }
        path.pop();
    }
    Ok(None)
}

/// Looks for the first find in the slots of `count` consecutive rows from `first` on. Each row has `words` words and
/// `slots` slots. In `path` these rows are numbered from 0.
#[cycle(seek)]
fn seek_rows<S: Space, G: Aim, A: Allocator, L: Ledger>(
    space: CountedSpace<'_, S, L>,
    first: Place,
    count: u32,
    words: u16,
    slots: u16,
    depth: u32,
    aim: &mut G,
    path: &mut Vec<u32, A>,
    reads: &mut Reads<L>,
) -> Result<Option<G::Found>, Memory>
    requires message { IsMessage space }
    requires inside { first.word + count * (words + slots) ≤ length (segment_at space first.segment) }
    ensures found { IfOk result (λ r. (base : ℕ) → SeeksBelow space.entry G.finds G.next base depth
        (row_places first.segment first.word words slots count) (AreRowNumbers slots)
        aim.old aim.new path.old.items path.new.items r) }
    ensures grown { vec_capacity path.old ≤ vec_capacity path.new }
    ensures room { OnErr result (vec_capacity path.old < vec_len path.old + 2 * depth + 2) }
    ensures passed { 0 < slots → IfOk result (λ r. IfNone r
        (IsSpared G.finds G.next 0 aim.old aim.new reads.old reads.new)) }
    ensures reads { 0 < slots → (left : G → ℕ) → IsLowered G.finds G.next left
        → reads.new ≤ reads.old + 10 * left aim.old + 10 }
{
    let mut next = first.word;
    for row in 0..count {
        reads.tick();
        let Ok(()) = path.push(row) else {
            return Err(Memory);
        };
        let at = Place {
            segment: first.segment,
            word: next + words as u32,
        };
        match seek_slots(space.again(), at, slots as u32, depth, aim, path, reads)? {
            Some(found) => return Ok(Some(found)),
            None => {}
        }
        path.pop();
        next += words as u32 + slots as u32;
    }
    Ok(None)
}
