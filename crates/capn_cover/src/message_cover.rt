//! The cover of a message that is accepted.

ghost use Rattle.std.specs.Prelude.{◌≡◌, ◌⊎◌, ◌<◌, ◌≤◌, ◌+◌, ◌^◌, ◌∷◌, length, replicate, IfOk, IfErr};
ghost use Rattle.capn_words.specs.Message.{IsMessage, IsPlace, total};
ghost use Rattle.capn_value.specs.Tree.{Tree};
ghost use Rattle.capn_walk.specs.Accepted.{IsAccepted, IsValueOf, IsWalkRefused, paid, root};
ghost use Rattle.capn_walk.specs.Surveyed.{IsSurvey};
ghost use Rattle.capn_target.specs.declared.target.Fault.TheVariants.{Memory};
ghost use Rattle.capn_cover.specs.Numbers.{CountsBefore};
ghost use Rattle.capn_cover.specs.Cover.{IsCover, all_times};
ghost use Rattle.capn_cover.specs.Covers.{whole, unreached};
ghost use Rattle.capn_cover.specs.inner.Laid.{laid, cover_below};
ghost use Rattle.capn_cover.specs.inner.Marked.{AreMarked};

use crate::cover_visits::cover_slot;
use crate::covered::{Covered, Role};
use crate::cut_words::cut_words;
use crate::starts::words_before;
use crate::word_runs::cover_word;
use capn_walk::{Fault, Limits, Stopped, Surveyed, survey};
use capn_words::{Place, Space, total_words};
use std::alloc::{AllocError, Allocator, Global};

/// The cover of a message, and the survey that accepted the message.
#[derive(Debug, Drop)]
pub struct SurveyedCover<A: Allocator = Global> {
    /// An item for each word of the message.
    pub words: Vec<Covered, A>,
    /// The survey of the message.
    pub survey: Surveyed,
}

/// Finds for each word of the message `space` how often the visits of its walk cover it, to which visit it belongs,
/// what it is there and whether something else covers it too, if the message is accepted within `limits`.
///
/// A visit covers words if its slot leads to a struct or a list: first those of its landing pad, then those of the
/// content. The root's slot is covered by the message itself, before all visits. A word belongs to the first that
/// covers it. It is a slot if a visit reads it as one, and cut if canonical bytes leave it out of the object to which
/// it belongs. (Our own.)
///
/// The work is one step for each word that is covered, as often as it is. Then the object of each slot is read once
/// more, however often the slot is visited, for what canonical bytes leave out of it. That takes a few steps for each
/// word of these objects, all of which the walk has paid. The errors are those of [`survey`], and `Memory`. `Memory` is
/// returned only if an allocation on `alloc` was refused.
///
/// Memory: 16 bytes for each word of the message, and while the call runs 4 bytes for each segment.
pub fn cover<S: Space, A: Allocator + Copy>(
    alloc: A,
    space: &S,
    limits: Limits,
) -> Result<Vec<Covered, A>, Stopped>
    // If `result` is `Ok`, the message is accepted, and there is an item for each word: how often it is covered, by
    // what first, whether something else covers it too, what first reads it as a slot, and whether it is cut.
    ensures found { IfOk result (λ words. IsCover (S.message space.now) limits words.items) }
    // All words together are covered at most once for each word that the walk pays, and the root's slot once more.
    ensures work { IfOk result (λ words. all_times words.items ≤ 1 + paid (S.message space.now) limits) }
    // An accepted message gives `Ok`, unless an allocation was refused. Any other error is the stop of the walk.
    ensures only { (v : Tree) → IsValueOf (S.message space.now) limits v → IfErr result (λ s. s.fault ≡ Memory) }
    ensures refused { IfErr result (λ s.
        (s.fault ≡ Memory)
        ⊎ IsWalkRefused (S.message space.now) limits s.fault s.place s.paid s.visits) }
    // Memory is taken only after the survey has accepted the message. So if the fault is `Memory`, the message is
    // accepted.
    ensures no_memory { IfErr result (λ s. s.fault ≡ Memory → IsAccepted (S.message space.now) limits) }
{
    match cover_surveyed(alloc, space, limits) {
        Ok(cover) => Ok(cover.words),
        Err(stopped) => Err(stopped),
    }
}

/// Finds what [`cover`] finds, and also returns the survey of the message `space` that [`cover`] begins with, so that
/// a caller needs no second one.
///
/// The work, the errors and the memory are those of [`cover`]. (Our own.)
pub fn cover_surveyed<S: Space, A: Allocator + Copy>(
    alloc: A,
    space: &S,
    limits: Limits,
) -> Result<SurveyedCover<A>, Stopped>
    // If `result` is `Ok`, the message is accepted, and there is an item for each word: how often it is covered, by
    // what first, whether something else covers it too, what first reads it as a slot, and whether it is cut.
    ensures found { IfOk result (λ c. IsCover (S.message space.now) limits c.words.items) }
    // If `result` is `Ok`, it also has the number of words that the walk pays, the number of visits, and the first
    // capability of the value.
    ensures surveyed { IfOk result (λ c. IsSurvey (S.message space.now) limits c.survey) }
    // All words together are covered at most once for each word that the walk pays, and the root's slot once more.
    ensures work { IfOk result (λ c. all_times c.words.items ≤ 1 + paid (S.message space.now) limits) }
    // An accepted message gives `Ok`, unless an allocation was refused. Any other error is the stop of the walk.
    ensures only { (v : Tree) → IsValueOf (S.message space.now) limits v → IfErr result (λ s. s.fault ≡ Memory) }
    ensures refused { IfErr result (λ s.
        (s.fault ≡ Memory)
        ⊎ IsWalkRefused (S.message space.now) limits s.fault s.place s.paid s.visits) }
    // Memory is taken only after the survey has accepted the message. So if the fault is `Memory`, the message is
    // accepted.
    ensures no_memory { IfErr result (λ s. s.fault ≡ Memory → IsAccepted (S.message space.now) limits) }
{
    let _bounds = space.segments();
    let _most = limits.budget();
    let survey = survey(alloc, space, limits)?;
    match cover_accepted(alloc, space, limits.depth()) {
        Ok(words) => Ok(SurveyedCover { words, survey }),
        Err(_) => Err(Stopped {
            fault: Fault::Memory,
            place: Place::ROOT,
            paid: 0,
            visits: 0,
        }),
    }
}

/// Returns what the visits make of each word of the message `space`, which is at most `depth` objects deep.
fn cover_accepted<S: Space, A: Allocator + Copy>(
    alloc: A,
    space: &S,
    depth: u32,
) -> Result<Vec<Covered, A>, AllocError>
    requires message { IsMessage (S.message space.now) }
    requires place { IsPlace (S.message space.now) root }
    requires few { 1 + length (cover_below (S.message space.now) depth root) < 2 ^ 32 }
    ensures { IfOk result (λ words. AreMarked (S.message space.now) (laid (S.message space.now)
        (whole ∷ cover_below (S.message space.now) depth root) (replicate (total (S.message space.now)) unreached))
        words.items) }
{
    let before = words_before(alloc, space)?;
    let total = total_words(space);
    let mut words = vec![in alloc; Covered::unreached(); total as usize]?;
    cover_all(space, &before, &mut words, depth);
    cut_covered(space, &before, &mut words, depth);
    Ok(words)
}

/// Covers the root's slot by the message itself, and then makes all visits of the message `space`, which is at most
/// `depth` objects deep. Nothing covers `cells` yet. Element `s` of `before` is the number of words before segment `s`.
fn cover_all<S: Space>(space: &S, before: &[u32], cells: &mut [Covered], depth: u32)
    requires message { IsMessage (S.message space.now) }
    requires counts { CountsBefore (S.message space.now) before.now }
    requires place { IsPlace (S.message space.now) root }
    requires few { 1 + length (cover_below (S.message space.now) depth root) < 2 ^ 32 }
    requires fresh { cells.old ≡ replicate (total (S.message space.now)) unreached }
    ensures { cells.new ≡ laid (S.message space.now) (whole ∷ cover_below (S.message space.now) depth root) cells.old }
{
    cover_word(space, before, cells, 0, 0, Role::Root);
    cover_slot(space, before, cells, Place::ROOT, depth);
}

/// Marks each of the words `cells` that canonical bytes leave out of the object to which it belongs. What covers the
/// words of the message `space`, which is at most `depth` objects deep, has been laid into `cells`. Element `s` of
/// `before` is the number of words before segment `s`.
fn cut_covered<S: Space>(space: &S, before: &[u32], cells: &mut [Covered], _depth: u32)
    requires message { IsMessage (S.message space.now) }
    requires counts { CountsBefore (S.message space.now) before.now }
    requires place { IsPlace (S.message space.now) root }
    requires covered { cells.old ≡ laid (S.message space.now)
        (whole ∷ cover_below (S.message space.now) _depth root) (replicate (total (S.message space.now)) unreached) }
    ensures { AreMarked (S.message space.now) (laid (S.message space.now)
        (whole ∷ cover_below (S.message space.now) _depth root) (replicate (total (S.message space.now)) unreached))
        cells.new }
{
    cut_words(space, before, cells);
}
