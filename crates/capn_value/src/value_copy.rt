//! Copies of values in other memory, trimmed or unchanged. Each call returns `AllocError` if an allocation is refused.

ghost use Rattle.std.specs.Prelude.{◌≡◌, ◌≢◌, [], ◌∷◌, ◌++◌, IfOk, OnOk, OnErr, IsOkAnd, List};
ghost use Rattle.capn_value.specs.Tree.{nil, front};
ghost use Rattle.capn_value.specs.TreeOf.{tree_of, trees_of, rows_of};
ghost use Rattle.capn_value.specs.declared.value.Value.{Value, Node, Links, Rows};
ghost use Rattle.capn_value.specs.declared.value.Body.{Body};
ghost use Rattle.capn_value.specs.Trim as cut;
ghost use Rattle.capn_value.specs.inner.CutCopy as made;

use crate::items::Items;
use crate::kept_lengths::{kept_slots, kept_slots_of_rows, kept_words, kept_words_of_rows};
use crate::sameness::is_null;
use crate::value::{Body, Value};
use std::alloc::{AllocError, Allocator};

fn copied<T: Copy, A: Allocator, B: Allocator>(
    alloc: A,
    items: &Items<T, B>,
) -> Result<Items<T, A>, AllocError>
    ensures { IfOk result (λ it. it ≡ items.now) }
{
    Items::from_slice(alloc, items.as_slice())
}

/// Appends the item in `made` to `out`. If `made` is an `Err`, or an allocation is refused, returns `AllocError` and
/// does not change `out`.
#[inline]
pub fn push_made<T: Drop, A: Allocator>(
    out: &mut Items<T, A>,
    made: Result<T, AllocError>,
) -> Result<(), AllocError>
    ensures ok { OnOk result (IsOkAnd made (λ item. out.new ≡ out.old ++ item ∷ [])) }
    ensures err { OnErr result (out.new ≡ out.old) }
{
    out.push(made?)
}

/// Copies `v` into memory of `alloc`. Null takes no memory.
pub fn copy_value<A: Allocator + Copy, B: Allocator>(
    alloc: A,
    v: &Value<B>,
) -> Result<Value<A>, AllocError>
    ensures value { IfOk result (λ r. tree_of r ≡ tree_of v.now) }
    ensures memory { OnErr result (tree_of v.now ≢ nil) }
{
    if is_null(v) {
        return Ok(Value::Nil);
    }
    anew(alloc, v, false)
}

/// Copies `v`, which has no values below it, into memory of `alloc`.
pub fn copy_of_plain<A: Allocator, B: Allocator>(
    alloc: A,
    v: &Value<B>,
) -> Result<Value<A>, AllocError>
    requires no_struct { (body : Body B) → v.now ≢ Node body }
    requires no_pointers { (items : List (Value B)) → v.now ≢ Links items }
    requires no_rows { (rows : List (Body B)) → v.now ≢ Rows rows }
    ensures { IfOk result (λ r. tree_of r ≡ tree_of v.now) }
{
    match v {
        Value::Nil => Ok(Value::Nil),
        Value::Voids(n) => Ok(Value::Voids(*n)),
        Value::Bits(xs) => Ok(Value::Bits(copied(alloc, xs)?)),
        Value::Bytes(xs) => Ok(Value::Bytes(copied(alloc, xs)?)),
        Value::Pairs(xs) => Ok(Value::Pairs(copied(alloc, xs)?)),
        Value::Quads(xs) => Ok(Value::Quads(copied(alloc, xs)?)),
        Value::Octs(xs) => Ok(Value::Octs(copied(alloc, xs)?)),
        Value::Cap(k) => Ok(Value::Cap(*k)),
        Value::Node(_) | Value::Links(_) | Value::Rows(_) => unreachable!(),
    }
}

/// Copies `v`, trimmed at every level, into memory of `alloc`. Null takes no memory.
pub fn trim_value<A: Allocator + Copy, B: Allocator>(
    alloc: A,
    v: &Value<B>,
) -> Result<Value<A>, AllocError>
    ensures value { IfOk result (λ r. tree_of r ≡ cut.trimmed (tree_of v.now)) }
    ensures memory { OnErr result (tree_of v.now ≢ nil) }
{
    if is_null(v) {
        return Ok(Value::Nil);
    }
    anew(alloc, v, true)
}

// Returns the numbers of words and of slots that trimming keeps of `body`, or `None` if `cut` is false.
fn kept_of_body<A: Allocator>(body: &Body<A>, cut: bool) -> Option<(usize, usize)>
    ensures { result ≡ made.kept_of_body cut body.now.words (trees_of body.now.slots) }
{
    if !cut {
        return None;
    }
    Some((
        kept_words(body.words.as_slice()),
        kept_slots(body.slots.as_slice()),
    ))
}

// Returns the numbers of words and of slots that trimming keeps of each of `rows`, or `None` if `cut` is false.
fn kept_of_rows<A: Allocator>(rows: &[Body<A>], cut: bool) -> Option<(usize, usize)>
    ensures { result ≡ made.kept_of_rows cut (rows_of rows.now) }
{
    if !cut {
        return None;
    }
    Some((kept_words_of_rows(rows), kept_slots_of_rows(rows)))
}

/// Copies `v` into memory of `alloc`. If `cut` is true, the copy is trimmed at every level.
#[cycle(anew)]
pub fn anew<A: Allocator + Copy, B: Allocator>(
    alloc: A,
    v: &Value<B>,
    cut: bool,
) -> Result<Value<A>, AllocError>
    ensures { IfOk result (λ r. tree_of r ≡ made.anew cut (tree_of v.now)) }
{
    match v {
        Value::Node(body) => Ok(Value::Node(anew_body(alloc, body, kept_of_body(body, cut))?)),
        Value::Links(items) => {
            Ok(Value::Links(anew_front(alloc, items.as_slice(), items.len(), cut)?))
        }
        Value::Rows(rows) => {
            let rows = rows.as_slice();
            Ok(Value::Rows(anew_rows(alloc, rows, kept_of_rows(rows, cut))?))
        }
        _ => copy_of_plain(alloc, v),
    }
}

// Copies `body`. If `kept` is `Some((w, s))`, the copy has only the first `w` words and the first `s` slots, and each
// of these slots is trimmed.
#[cycle(anew)]
fn anew_body<A: Allocator + Copy, B: Allocator>(
    alloc: A,
    body: &Body<B>,
    kept: Option<(usize, usize)>,
) -> Result<Body<A>, AllocError>
    ensures words { IfOk result (λ r. r.words ≡ made.words_anew kept body.now.words) }
    ensures slots { IfOk result (λ r. trees_of r.slots ≡ made.slots_anew kept (trees_of body.now.slots)) }
{
    let all = body.words.as_slice();
    let (words, slots) = kept.unwrap_or((all.len(), body.slots.len()));
    let words = Items::from_slice(alloc, &all[..words.min(all.len())])?;
    let slots = anew_front(alloc, body.slots.as_slice(), slots, kept.is_some())?;
    Ok(Body { words, slots })
}

// Copies at most `most` of `items`, from the front, into memory of `alloc`. If `cut` is true, each copy is trimmed.
#[cycle(anew)]
fn anew_front<A: Allocator + Copy, B: Allocator>(
    alloc: A,
    items: &[Value<B>],
    most: usize,
    cut: bool,
) -> Result<Items<Value<A>, A>, AllocError>
    ensures { IfOk result (λ r. trees_of r ≡ front most (made.each_anew cut (trees_of items.now))) }
{
    let len = most.min(items.len());
    let mut out = Items::with_capacity(alloc, len)?;
    for i in 0..len {
        push_made(&mut out, anew(alloc, &items[i], cut))?;
    }
    Ok(out)
}

// Copies `rows`. If `kept` is `Some((w, s))`, each copied row has only the first `w` words and the first `s` slots, and
// each of these slots is trimmed.
#[cycle(anew)]
fn anew_rows<A: Allocator + Copy, B: Allocator>(
    alloc: A,
    rows: &[Body<B>],
    kept: Option<(usize, usize)>,
) -> Result<Items<Body<A>, A>, AllocError>
    ensures { IfOk result (λ r. rows_of r ≡ made.rows_anew kept (rows_of rows.now)) }
{
    let mut out = Items::with_capacity(alloc, rows.len())?;
    for row in rows {
        push_made(&mut out, anew_body(alloc, row, kept))?;
    }
    Ok(out)
}
