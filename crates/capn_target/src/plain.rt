//! The calls that find the target of a slot step by step, for any `Space`. `resolve` calls the `resolve` of
//! [`counted`](crate::counted) with a new ledger. The other calls read the `Space` directly.

ghost use Rattle.std.specs.Prelude.{◌≡◌, ◌<◌, length, IfOk};
ghost use Rattle.capn_words.specs.Message.{segment_at, IsPlace};
ghost use Rattle.capn_target.specs.Target as spec;
ghost use Rattle.capn_target.specs.Shapes.{IsInMessage};

use crate::reader::count_reads;
use crate::slot_target;
use crate::target::{Fault, Target};
use capn_words::{Place, Pointer, Space, split};
use std::marker::Brand;
use std::sync::ledger::{Blank, Ledger};

/// Returns the number of words of `segment`, or 0 if there is no such segment.
#[tactic(auto, using(crate::proofs::shared::Segments::length_of_none, crate::proofs::shared::Segments::length_of_some))]
#[inline(always)]
pub fn segment_length<S: Space>(space: &S, segment: u32) -> u32
    ensures { result ≡ length (segment_at (S.message space.now) segment) }
{
    space.words(segment).unwrap_or(0)
}

/// Finds the target of the pointer at `at`, or the first fault of that pointer.
///
/// The place has to be in range. The errors are `Reserved` to `TagOverrun`. The tests are made in this order: the word
/// itself, the landing pad, the range of the content, the tag word of a composite list. Reads at most four words and
/// takes no memory. (Page: structs, lists, inter-segment pointers, capabilities; the order is our own.)
#[inline(always)]
pub fn resolve<S: Space>(space: &S, at: Place) -> Result<Target, Fault>
    requires { IsPlace (S.message space.now) at }
    ensures exact { result ≡ spec.target (S.message space.now) at }
    // If `result` is content, the content lies within its segment, which exists. The rows of a composite list are
    // within the words that the list's pointer gives.
    ensures inside { IfOk result (λ t. IsInMessage (S.message space.now) t) }
{
    resolve_with_ledger::<S, Brand>(space, at, Blank::new(1))
}

/// Reads the pointer at `word` of `segment`.
#[inline(always)]
pub fn pointer_at<S: Space>(space: &S, segment: u32, word: u32) -> Pointer
    requires { word < length (segment_at (S.message space.now) segment) }
    ensures { result ≡ spec.pointer_in (S.message space.now) segment word }
{
    split(space.word(Place { segment, word }))
}

/// Finds the target of the pointer at `at`, or the first fault of that pointer, with a count in the new ledger `blank`.
#[inline(always)]
fn resolve_with_ledger<S: Space, L: Ledger>(
    space: &S,
    at: Place,
    blank: Blank,
) -> Result<Target, Fault>
    requires name { blank.name ≡ L.name }
    requires parts { blank.parts ≡ L.parts }
    requires one { 0 < blank.parts }
    requires place { IsPlace (S.message space.now) at }
    ensures exact { result ≡ spec.target (S.message space.now) at }
    // If `result` is content, the content lies within its segment, which exists. The rows of a composite list are
    // within the words that the list's pointer gives.
    ensures inside { IfOk result (λ t. IsInMessage (S.message space.now) t) }
{
    let (space, mut reads) = count_reads::<S, L>(space, blank);
    slot_target::resolve(&space, at, &mut reads)
}
