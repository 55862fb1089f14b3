//! The search for the object that holds a slot.

ghost use Rattle.std.specs.Prelude.{◌≡◌, ℕ, ◌+◌, ◌*◌, ◌<◌, ◌≤◌, ◌^◌, length, None, Some, IfNone, IfSome, MatchOption};
ghost use Rattle.capn_words.specs.Message.{segment_at, IsPlace};
ghost use Rattle.capn_target.specs.Shapes.{IsContent, RowsFit, extent};
ghost use Rattle.capn_walk.specs.Limits.{Bounds};
ghost use Rattle.capn_path.specs.Paths.{IsPathTo};
ghost use Rattle.capn_path.specs.Holders.{IsHolder, IsHolderOrRoot};
ghost use Rattle.capn_target.specs.Target.{target};
ghost use Rattle.capn_path.specs.inner.Followed as spec;

use capn_target::{Shape, Target, resolve, segment_length};
use capn_words::{Place, Space, Width};

/// The object that holds a slot: a struct, a list of pointers, or a row of a list of structs.
#[derive(Clone, Copy, Debug, PartialEq, Eq)]
pub enum Holder {
    /// A struct.
    Struct {
        /// The number of data words of the struct.
        words: u16,
        /// The number of slots of the struct.
        slots: u16,
        /// The place of the first data word, or of the first slot if there are no data words.
        at: Place,
    },
    /// A list of pointers.
    Pointers {
        /// The number of elements of the list.
        count: u32,
        /// The place of the first element.
        at: Place,
    },
    /// A struct of a list of structs.
    Row {
        /// The number of the row in the list, counted from 0.
        row: u32,
        /// The number of structs in the list.
        count: u32,
        /// The place of the first data word, or of the first slot if there are no data words.
        at: Place,
    },
}

/// A slot to which a path leads.
#[derive(Clone, Copy)]
pub struct Spot {
    /// The object that holds the slot. The root's slot has none.
    pub holder: Option<Holder>,
    /// The place of the slot.
    pub place: Place,
}

/// Finds the object that holds the slot to which `path` leads from the root.
///
/// Returns `None` if `path` leads to no slot, or if `path` is empty, since nothing holds the root's slot. `path` is
/// followed from the root, with at most four words read for each step. No memory is allocated, and no limits apply.
pub fn holder_of<S: Space>(space: &S, path: &[u32]) -> Option<Holder>
    // If `result` is `Some(holder)`, `holder` is the object that holds the slot to which `path` leads.
    ensures some { IfSome result (λ holder. (to : Place) × IsHolder (S.message space.now) path.now to holder) }
    // If `result` is `None`, no object holds a slot to which `path` leads.
    ensures none { IfNone result
        ((to : Place) (holder : Holder) → IsHolder (S.message space.now) path.now to holder → ⊥) }
    // If `path` leads to the slot of a visit, `result` is the holder of that slot, or `None` if `path` is empty. The
    // visit can be the one at which a walk stopped.
    ensures visit { (limits : Bounds) (number : ℕ) (to : Place)
        → IsPathTo (S.message space.now) limits number path.now to
        → IsHolderOrRoot (S.message space.now) path.now to result }
{
    held(space, path)
}

/// Finds the holder of the slot to which `path` leads from the root.
fn held<S: Space>(space: &S, path: &[u32]) -> Option<Holder>
    ensures { result ≡ spec.holder_at (spec.follow (S.message space.now) (length path.now) spec.start path.now) }
{
    if segment_length(space, Place::ROOT.segment) == 0 {
        return None;
    }
    let root = Spot {
        holder: None,
        place: Place::ROOT,
    };
    match followed(space, root, path) {
        Some(spot) => spot.holder,
        None => None,
    }
}

/// Follows `path` from the slot `from`. Returns the slot to which `path` leads, or `None` if `path` leads to no slot.
fn followed<S: Space>(space: &S, from: Spot, path: &[u32]) -> Option<Spot>
    requires place { IsPlace (S.message space.now) from.place }
    ensures { result ≡ spec.follow (S.message space.now) (length path.now) from path.now }
{
    let mut spot = from;
    let mut rest = path;
    while let [_, ..] = rest {
        match step(space, spot.place, rest) {
            Some((next, after)) => {
                spot = next;
                rest = after;
            }
            None => return None,
        }
    }
    Some(spot)
}

/// Follows `path` one step from the slot at `at`. Returns the slot to which that step leads, and the remaining numbers
/// of `path`, or `None` if the step leads to no slot.
fn step<'w, S: Space>(space: &S, at: Place, path: &'w [u32]) -> Option<(Spot, &'w [u32])>
    requires place { IsPlace (S.message space.now) at }
    ensures place { IfSome result (λ x. IsPlace (S.message space.now) x.0.place) }
    ensures shorter { IfSome result (λ x. length x.1.now < length path.now) }
    ensures exact { MatchOption result
        (spec.step_by (target (S.message space.now) at) path.now ≡ None)
        (λ x. spec.step_by (target (S.message space.now) at) path.now ≡ Some (x.0, x.1.now)) }
{
    match resolve(space, at) {
        Ok(target) => match target {
            Target::Nil => None,
            Target::Cap(_) => None,
            Target::Content {
                segment,
                start,
                shape,
                pads: _,
            } => {
                let start = Place {
                    segment,
                    word: start,
                };
                step_in(space, start, shape, path)
            }
        },
        Err(_) => None,
    }
}

/// Follows `path` one step among the slots of an object of `shape` whose content starts at `start`. Returns the slot to
/// which that step leads, and the remaining numbers of `path`, or `None` if the step leads to no slot.
fn step_in<'w, S: Space>(
    space: &S,
    start: Place,
    shape: Shape,
    path: &'w [u32],
) -> Option<(Spot, &'w [u32])>
    requires content { IsContent (S.message space.now) start (extent shape) }
    requires rows { RowsFit shape }
    ensures place { IfSome result (λ x. IsPlace (S.message space.now) x.0.place) }
    ensures shorter { IfSome result (λ x. length x.1.now < length path.now) }
    ensures exact { MatchOption result
        (spec.step_in start.segment start.word shape path.now ≡ None)
        (λ x. spec.step_in start.segment start.word shape path.now ≡ Some (x.0, x.1.now)) }
{
    let _bounds = space.segments();
    let segment = start.segment;
    match shape {
        Shape::Node { words, slots } => {
            let holder = Holder::Struct {
                words,
                slots,
                at: start,
            };
            let first = Place {
                segment,
                word: start.word + words as u32,
            };
            step_among(space, holder, first, slots as u32, path)
        }
        Shape::Many { width, count } => match width {
            Width::Link => {
                let holder = Holder::Pointers { count, at: start };
                step_among(space, holder, start, count, path)
            }
            _ => None,
        },
        Shape::Rows {
            count,
            words,
            slots,
            span: _,
        } => step_in_rows(space, start, count, words, slots, path),
    }
}

/// Follows `path` one step among the slots of `count` rows after the tag at `start`. Each row has `words` words and
/// `slots` slots. Returns the slot to which that step leads, and the remaining numbers of `path`, or `None` if the step
/// leads to no slot.
fn step_in_rows<'w, S: Space>(
    space: &S,
    start: Place,
    count: u32,
    words: u16,
    slots: u16,
    path: &'w [u32],
) -> Option<(Spot, &'w [u32])>
    requires inside { start.word + 1 + count * (words + slots)
        ≤ length (segment_at (S.message space.now) start.segment) }
    ensures place { IfSome result (λ x. IsPlace (S.message space.now) x.0.place) }
    ensures shorter { IfSome result (λ x. length x.1.now < length path.now) }
    ensures exact { MatchOption result
        (spec.step_in_rows start.segment start.word count words slots path.now ≡ None)
        (λ x. spec.step_in_rows start.segment start.word count words slots path.now ≡ Some (x.0, x.1.now)) }
{
    let _bounds = space.segments();
    let segment = start.segment;
    let [row, others @ ..] = path else {
        return None;
    };
    let row = *row;
    if row >= count {
        return None;
    }
    let word = start.word + 1 + row * (words as u32 + slots as u32);
    let holder = Holder::Row {
        row,
        count,
        at: Place { segment, word },
    };
    let first = Place {
        segment,
        word: word + words as u32,
    };
    step_among(space, holder, first, slots as u32, others)
}

/// Follows `path` one step among the `count` consecutive slots of `holder` from `first` on. Returns the slot to which
/// that step leads, and the remaining numbers of `path`, or `None` if the step leads to no slot.
fn step_among<'w, S: Space>(
    space: &S,
    holder: Holder,
    first: Place,
    count: u32,
    path: &'w [u32],
) -> Option<(Spot, &'w [u32])>
    requires inside { first.word + count ≤ length (segment_at (S.message space.now) first.segment) }
    ensures place { IfSome result (λ x. IsPlace (S.message space.now) x.0.place) }
    ensures shorter { IfSome result (λ x. length x.1.now < length path.now) }
    ensures exact { MatchOption result
        (spec.step_among holder first count path.now ≡ None)
        (λ x. spec.step_among holder first count path.now ≡ Some (x.0, x.1.now)) }
{
    let _bounds = space.segments();
    let [number, rest @ ..] = path else {
        return None;
    };
    if *number >= count {
        return None;
    }
    let place = Place {
        segment: first.segment,
        word: first.word + *number,
    };
    let spot = Spot {
        holder: Some(holder),
        place,
    };
    Some((spot, rest))
}
