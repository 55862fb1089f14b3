//! One step of a path: from the target of a pointer to a value below that target.

ghost use Rattle.std.specs.Prelude.{◌≡◌, ℕ, IfNone, IfSome, None, Ok};
ghost use Rattle.capn_words.specs.Message.{IsMessage, IsPlace};
ghost use Rattle.capn_value.specs.Tree.{Tree};
ghost use Rattle.capn_target.specs.Shapes.{IsContent, IsInMessage};
ghost use Rattle.capn_target.specs.Target.{target};
ghost use Rattle.capn_walk.specs.ValueAt.{IsAt};
ghost use Rattle.capn_walk.specs.ShownValue.{Shows};
ghost use Rattle.capn_show.specs.Descent.{step_at, step_to};
ghost use Rattle.capn_show.specs.Part as parts;
ghost use Rattle.capn_show.specs.ReadyPlaces.{Holds, HasValue, LeadsTo};

use capn_walk::laws::views_show_values;
use capn_walk::{Shape, Target, resolve};
use capn_words::{Place, Space, Width};

/// The place and the target of a value in a message.
#[derive(Clone, Copy, Debug, PartialEq, Eq)]
pub struct Part {
    /// The slot with the pointer to the value, or the first word of a row.
    pub at: Place,
    /// The target of the pointer, or the struct that is the row.
    pub found: Target,
}

/// Steps down from the target `found` to the slot, element or row with this `number`. Returns `None` if `found` has no
/// slot, element or row with this number.
pub fn step_down<S: Space>(space: &S, found: Target, number: u64) -> Option<Part>
    requires message { IsMessage (S.message space.now) }
    requires inside { IsInMessage (S.message space.now) found }
    requires value { HasValue (S.message space.now) found }
    ensures inside { IfSome result (λ p. IsInMessage (S.message space.now) p.found) }
    ensures lies { IfSome result (λ p. IsContent (S.message space.now) p.at 0) }
    ensures at { IfSome result (λ p. p.at ≡ step_at found number) }
    ensures to { IfSome result (λ p. p.found ≡ step_to (S.message space.now) found number) }
    ensures there { IfSome result (λ p. (v : Tree) → Shows (S.message space.now) found v
        → LeadsTo (S.message space.now) v (parts.step_down v number) p.found) }
    ensures none { IfNone result ((v : Tree) → Shows (S.message space.now) found v → parts.step_down v number ≡ None) }
{
    match found {
        Target::Nil => None,
        Target::Cap(_) => None,
        Target::Content {
            segment,
            start,
            shape,
            pads: _,
        } => match shape {
            Shape::Node { words, slots } => {
                if number >= slots as u64 {
                    return None;
                }
                let at = Place {
                    segment,
                    word: start + words as u32 + number as u32,
                };
                let below = named(space, at);
                Some(Part { at, found: below })
            }
            Shape::Many { width, count } => match width {
                Width::Link => {
                    if number >= count as u64 {
                        return None;
                    }
                    let at = Place {
                        segment,
                        word: start + number as u32,
                    };
                    let below = named(space, at);
                    Some(Part { at, found: below })
                }
                _ => None,
            },
            Shape::Rows {
                count,
                words,
                slots,
                span: _,
            } => {
                if number >= count as u64 {
                    return None;
                }
                let first = start + 1 + number as u32 * (words as u32 + slots as u32);
                let at = Place {
                    segment,
                    word: first,
                };
                let below = Target::Content {
                    segment,
                    start: first,
                    shape: Shape::Node { words, slots },
                    pads: 0,
                };
                Some(Part { at, found: below })
            }
        },
    }
}

/// Returns the target of the pointer at `at`. There has to be a value at `at`.
pub fn named<S: Space>(space: &S, at: Place) -> Target
    requires message { IsMessage (S.message space.now) }
    requires place { IsPlace (S.message space.now) at }
    requires value { Holds (S.message space.now) at }
    ensures is { target (S.message space.now) at ≡ Ok result }
    ensures inside { IsInMessage (S.message space.now) result }
    ensures shown { (v : Tree) → IsAt (S.message space.now) at v → Shows (S.message space.now) result v }
{
    views_show_values();
    match resolve(space, at) {
        Ok(found) => found,
        // The precondition says that there is a value at `at`, so the pointer has a target.
        Err(_) => unreachable!(),
    }
}
