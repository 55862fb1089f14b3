//! The descent from a slot to the owner of a word.

ghost use Rattle.std.specs.Prelude.{◌≡◌, ℕ, [], ◌∷◌, ◌++◌, IfOk, IfSome};
ghost use Rattle.capn_words.specs.Message.{IsPlace};
ghost use Rattle.capn_target.specs.Shapes.{IsContent, RowsFit, extent};
ghost use Rattle.capn_mismatch.specs.inner.Reached.{Reaches, ReachesBelow, numbers};

use crate::likely::likely_step;
use crate::word_kind::{WordKind, finds};
use capn_target::{Shape, Target, resolve};
use capn_words::{Memory, Place, Space};
use std::alloc::Allocator;

/// Searches for the slot that owns `word`, from the slot at `at` downwards. Returns the kind of the word if that slot
/// is found, and `None` otherwise.
///
/// Below each object, only the likely slot is searched, so few words are read. The result may be `None` although a slot
/// owns the word.
///
/// On entry, `path` leads to the slot at `at`. If the result is `Some`, `path` leads to the slot that owns `word`. If
/// the result is `None`, `path` may have further numbers. `Memory` is returned if `path` cannot grow.
#[cycle(descent)]
pub fn descend<S: Space, A: Allocator>(
    space: &S,
    at: Place,
    depth: u32,
    word: Place,
    path: &mut Vec<u32, A>,
) -> Result<Option<WordKind>, Memory>
    requires place { IsPlace (S.message space.now) at }
    ensures { IfOk result (λ r. IfSome r (λ found. (base : ℕ)
        → Reaches (S.message space.now) base word depth at path.old.items path.new.items found)) }
{
    let named = resolve(space, at);
    match finds(word, at, named) {
        Some(found) => return Ok(Some(found)),
        None => {}
    }
    match named {
        Ok(target) => match target {
            Target::Nil => Ok(None),
            Target::Cap(_) => Ok(None),
            Target::Content {
                segment,
                start,
                shape,
                pads: _,
            } => {
                if depth == 0 {
                    return Ok(None);
                }
                let start = Place {
                    segment,
                    word: start,
                };
                let found = descend_below(space, start, shape, depth - 1, word, path)?;
                Ok(found)
            }
        },
        Err(_) => Ok(None),
    }
}

/// Searches as [`descend`] does, from the object of `shape` whose content starts at `start`.
#[cycle(descent)]
fn descend_below<S: Space, A: Allocator>(
    space: &S,
    start: Place,
    shape: Shape,
    depth: u32,
    word: Place,
    path: &mut Vec<u32, A>,
) -> Result<Option<WordKind>, Memory>
    requires content { IsContent (S.message space.now) start (extent shape) }
    requires rows { RowsFit shape }
    ensures { IfOk result (λ r. IfSome r (λ found. (base : ℕ)
        → ReachesBelow (S.message space.now) base word depth start shape path.old.items path.new.items found)) }
{
    let Some(step) = likely_step(space, start, shape, word) else {
        return Ok(None);
    };
    put_numbers(shape, step.row, step.slot, path)?;
    let found = descend(space, step.at, depth, word, path)?;
    Ok(found)
}

/// Appends to `path` the numbers that lead to slot `slot` of row `row` in an object of `shape`.
fn put_numbers<A: Allocator>(
    shape: Shape,
    row: u32,
    slot: u32,
    path: &mut Vec<u32, A>,
) -> Result<(), Memory>
    ensures { IfOk result (λ r. path.new.items ≡ path.old.items ++ numbers shape row slot) }
{
    match shape {
        Shape::Rows { .. } => {
            let Ok(()) = path.push(row) else {
                return Err(Memory);
            };
            put_number(slot, path)
        }
        Shape::Node { .. } => put_number(slot, path),
        Shape::Many { .. } => put_number(slot, path),
    }
}

fn put_number<A: Allocator>(number: u32, path: &mut Vec<u32, A>) -> Result<(), Memory>
    ensures { IfOk result (λ r. path.new.items ≡ path.old.items ++ number ∷ []) }
{
    let Ok(()) = path.push(number) else {
        return Err(Memory);
    };
    Ok(())
}
