//! The parser of values. It is a recursion over the lines of a text, and reads a value with everything in it.

ghost use Rattle.std.specs.Prelude.{◌≡◌, ◌+◌, ◌*◌, ◌≤◌, map, IfErr};
ghost use Rattle.capn_value.specs.TreeOf.{tree_of, body_of};
ghost use Rattle.capn_text.specs.inner.Tokens as tokens;
ghost use Rattle.capn_text.specs.inner.Tokens.{Gives};
ghost use Rattle.capn_text.specs.inner.Stops.{GivesAt};
ghost use Rattle.capn_text.specs.declared.fault.Stop.TheVariants as stops;
ghost use Rattle.capn_text.specs.inner.Values as values;
ghost use Rattle.capn_text.specs.inner.Values.{Holds};

use crate::fault::Stop;
use crate::heads::{Head, Name, head_at};
use crate::leaves::{leaf_at, words_at};
use capn_value::{Body, Items, Value};
use std::alloc::Allocator;

/// Reads the value at the front of `text`, and returns the value with the bytes after it. The first line of the value
/// is at this `level`. A value higher than `room` is refused.
#[cycle(value_at)]
pub fn value_at<'t, A: Allocator + Copy>(
    alloc: A,
    room: u32,
    level: u32,
    text: &'t [u8],
) -> Result<(Value<A>, &'t [u8]), Stop>
    requires { level + 2 * room ≤ 600 }
    ensures { GivesAt (λ x. (tree_of x.0, x.1.now)) result (λ r. values.tree_at r level) room text.now }
{
    let (head, rest) = head_at(level, text)?;
    if room == 0 {
        return low_at(head, rest);
    }
    content_at(alloc, room - 1, level, head, rest)
}

// Makes the value of height 0 with the first line `head`: null or a capability. For any other first line the stop is
// `Deep`.
#[tactic(auto, using(crate::proofs::ValueOfParts::steps_and_views))]
fn low_at<'t, A: Allocator>(head: Head, text: &'t [u8]) -> Result<(Value<A>, &'t [u8]), Stop>
    requires { Holds head }
    ensures value { Gives (λ x. (tree_of x.0, x.1.now)) result (values.low_at head text.now) }
    ensures deep { IfErr result (λ e. e ≡ stops.Deep) }
{
    match head {
        Head::Null => Ok((Value::Nil, text)),
        Head::Named(Name::Cap, number) => Ok((Value::Cap(number as u32), text)),
        _ => Err(Stop::Deep),
    }
}

// Reads the lines of a value after its first line, `head`, which was at this `level`. The values below this value have
// a height of at most `room`.
#[cycle(value_at)]
#[tactic(auto, using(crate::proofs::ValueOfParts::steps_and_views))]
fn content_at<'t, A: Allocator + Copy>(
    alloc: A,
    room: u32,
    level: u32,
    head: Head,
    text: &'t [u8],
) -> Result<(Value<A>, &'t [u8]), Stop>
    requires level { level + 2 + 2 * room ≤ 600 }
    requires head { Holds head }
    ensures { GivesAt (λ x. (tree_of x.0, x.1.now)) result
        (λ r. values.content_at (values.tree_at r) level head) room text.now }
{
    match head {
        Head::Null => Ok((Value::Nil, text)),
        Head::Struct(words, slots) => {
            let (body, rest) = body_at(alloc, room, level, words, slots, text)?;
            Ok((Value::Node(body), rest))
        }
        Head::Named(name, count) => match name {
            Name::Links => {
                let (items, rest) = values_at(alloc, room, level + 1, count, text)?;
                Ok((Value::Links(Items::from_vec(items)), rest))
            }
            Name::Rows => {
                let (rows, rest) = rows_at(alloc, room, level + 1, count, text)?;
                Ok((Value::Rows(Items::from_vec(rows)), rest))
            }
            Name::Cap => Ok((Value::Cap(count as u32), text)),
            Name::Leaf(leaf) => leaf_at(alloc, level, leaf, count, text),
        },
    }
}

// Reads the data words and the slots of a struct. The first line of the struct was at this `level`.
#[cycle(value_at)]
#[tactic(auto, unfolding(crate::specs::inner::Values::body_at))]
fn body_at<'t, A: Allocator + Copy>(
    alloc: A,
    room: u32,
    level: u32,
    words: u64,
    slots: u64,
    text: &'t [u8],
) -> Result<(Body<A>, &'t [u8]), Stop>
    requires { level + 1 + 2 * room ≤ 600 }
    ensures { GivesAt (λ x. (body_of x.0, x.1.now)) result
        (λ r. values.body_at (values.tree_at r) level words slots) room text.now }
{
    let (words, rest) = words_at(alloc, level + 1, words, text)?;
    let (slots, rest) = values_at(alloc, room, level + 1, slots, rest)?;
    let body = Body {
        words: Items::from_vec(words),
        slots: Items::from_vec(slots),
    };
    Ok((body, rest))
}

// Reads `count` values at this `level`, each of a height of at most `room`.
#[cycle(value_at)]
fn values_at<'t, A: Allocator + Copy>(
    alloc: A,
    room: u32,
    level: u32,
    count: u64,
    text: &'t [u8],
) -> Result<(Vec<Value<A>, A>, &'t [u8]), Stop>
    requires { level + 2 * room ≤ 600 }
    ensures { GivesAt (λ x. (map tree_of x.0.items, x.1.now)) result
        (λ r. tokens.many (values.tree_at r level) count) room text.now }
{
    let mut items = Vec::new(alloc);
    let mut rest = text;
    for _ in 0..count {
        let (value, after) = value_at(alloc, room, level, rest)?;
        items.push(value)?;
        rest = after;
    }
    Ok((items, rest))
}

// Reads one row at this `level`. The values in the row have a height of at most `room`.
#[cycle(value_at)]
#[tactic(auto, unfolding(crate::specs::inner::Values::row_at))]
fn row_at<'t, A: Allocator + Copy>(
    alloc: A,
    room: u32,
    level: u32,
    text: &'t [u8],
) -> Result<(Body<A>, &'t [u8]), Stop>
    requires { level + 1 + 2 * room ≤ 600 }
    ensures { GivesAt (λ x. (body_of x.0, x.1.now)) result (λ r. values.row_at (values.tree_at r) level) room text.now }
{
    let (head, rest) = head_at(level, text)?;
    match head {
        Head::Null => Err(Stop::Left(text.len())),
        Head::Struct(words, slots) => body_at(alloc, room, level, words, slots, rest),
        Head::Named(_, _) => Err(Stop::Left(text.len())),
    }
}

// Reads `count` rows at this `level`.
#[cycle(value_at)]
fn rows_at<'t, A: Allocator + Copy>(
    alloc: A,
    room: u32,
    level: u32,
    count: u64,
    text: &'t [u8],
) -> Result<(Vec<Body<A>, A>, &'t [u8]), Stop>
    requires { level + 1 + 2 * room ≤ 600 }
    ensures { GivesAt (λ x. (map body_of x.0.items, x.1.now)) result
        (λ r. tokens.many (values.row_at (values.tree_at r) level) count) room text.now }
{
    let mut items = Vec::new(alloc);
    let mut rest = text;
    for _ in 0..count {
        let (row, after) = row_at(alloc, room, level, rest)?;
        items.push(row)?;
        rest = after;
    }
    Ok((items, rest))
}
