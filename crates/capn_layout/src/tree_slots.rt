//! The slots of values in memory, as a source of a layout. Any change here that alters canonical bytes makes a new
//! version of the canonical form.

ghost use Rattle.std.specs.Prelude.{◌≡◌, ◌+◌, ◌*◌, ◌≤◌, ◌++◌, length, take, replicate};
ghost use Rattle.std.proofs.Common.{◌∙◌, sym};
ghost use Rattle.capn_value.specs.Tree.{count_rows};
ghost use Rattle.capn_value.specs.TreeOf.{tree_of, rows_of};
ghost use Rattle.capn_layout.specs.LayoutSteps.{zero_rows};
ghost use Rattle.capn_layout.specs.Sound.{AreWide, Sound};
ghost use Rattle.capn_layout.specs.inner.Draft.{Appends};
ghost use Rattle.capn_layout.specs.inner.Source.{IsItem};
ghost use Rattle.capn_layout.specs.inner.TreeSlots.{HasValue, PacksNumbers, AreBodies, values_of};

use crate::bits::extend_bits;
use crate::draft::{extend_bytes, extend_octs, extend_pairs, extend_quads, extend_zeros};
use crate::source::{Item, Source};
use capn_value::{Body, Value, kept_slots, kept_slots_of_rows, kept_words, kept_words_of_rows};
use capn_words::Width;
use std::alloc::Allocator;

/// The numbers of a list, by width.
#[derive(Clone, Copy)]
pub enum TreeNumbers<'a> {
    Voids,
    Bits(&'a [bool]),
    Bytes(&'a [u8]),
    Pairs(&'a [u16]),
    Quads(&'a [u32]),
    Octs(&'a [u64]),
}

/// The rows of a list of structs, or one row. The one row is a struct, or has only slots.
#[derive_where(Clone, Copy)]
pub enum TreeRows<'a, B: Allocator> {
    Bodies(&'a [Body<B>]),
    Body(&'a Body<B>),
    Slots(&'a [Value<B>]),
}

/// The slots of a value, or the root, which counts as one slot.
#[derive_where(Clone, Copy)]
pub enum TreeSlots<'a, B: Allocator> {
    Root(&'a Value<B>),
    Slots(&'a [Value<B>]),
}

impl<'a, B: Allocator> Source for TreeSlots<'a, B> {
    type Numbers = TreeNumbers<'a>;

    type Rows = TreeRows<'a, B>;

    type Reads = ();

    ghost has = { λ s k v. HasValue (values_of s) k v };

    ghost packs = { λ x ws. PacksNumbers x ws };

    ghost are = { λ x bs. AreBodies x bs };

    // No reads are counted, since a tree is not a message.
    ghost spent = { λ _. 0 };

    fn tick(_reads: &mut ()) {}

    fn again(rows: &TreeRows<'a, B>) -> TreeRows<'a, B> {
        *rows
    }

    fn item(&self, slot: u32, _reads: &mut ()) -> Item<TreeNumbers<'a>, TreeRows<'a, B>> {
        match *self {
            TreeSlots::Root(value) => item_of(value),
            TreeSlots::Slots(values) => item_of(&values[slot as usize]),
        }
    }

    fn append_numbers(
        numbers: &TreeNumbers<'a>,
        out: &mut [u8],
        len: usize,
        _reads: &mut (),
    ) -> usize {
        match *numbers {
            TreeNumbers::Voids => len,
            TreeNumbers::Bits(xs) => extend_bits(out, len, xs),
            TreeNumbers::Bytes(xs) => extend_bytes(out, len, xs),
            TreeNumbers::Pairs(xs) => extend_pairs(out, len, xs),
            TreeNumbers::Quads(xs) => extend_quads(out, len, xs),
            TreeNumbers::Octs(xs) => extend_octs(out, len, xs),
        }
    }

    fn count_words(numbers: &TreeNumbers<'a>) -> u32 {
        match *numbers {
            TreeNumbers::Voids => 0,
            TreeNumbers::Bits(xs) => xs.len().div_ceil(64) as u32,
            TreeNumbers::Bytes(xs) => xs.len().div_ceil(8) as u32,
            TreeNumbers::Pairs(xs) => xs.len().div_ceil(4) as u32,
            TreeNumbers::Quads(xs) => xs.len().div_ceil(2) as u32,
            TreeNumbers::Octs(xs) => xs.len() as u32,
        }
    }

    fn kept_words(rows: &TreeRows<'a, B>, _reads: &mut ()) -> u32 {
        match *rows {
            TreeRows::Bodies(bodies) => kept_words_of_rows(bodies) as u32,
            TreeRows::Body(body) => kept_words(body.words.as_slice()) as u32,
            TreeRows::Slots(_) => 0,
        }
    }

    fn kept_slots(rows: &TreeRows<'a, B>, _reads: &mut ()) -> u32 {
        match *rows {
            TreeRows::Bodies(bodies) => kept_slots_of_rows(bodies) as u32,
            TreeRows::Body(body) => kept_slots(body.slots.as_slice()) as u32,
            TreeRows::Slots(slots) => kept_slots(slots) as u32,
        }
    }

    fn append_rows(
        rows: &TreeRows<'a, B>,
        words: u32,
        slots: u32,
        out: &mut [u8],
        len: usize,
        _reads: &mut (),
    ) -> usize {
        match *rows {
            TreeRows::Bodies(bodies) => {
                push_bodies(bodies, words as usize, slots as usize, out, len)
            }
            TreeRows::Body(body) => push_body(body, words as usize, slots as usize, out, len),
            TreeRows::Slots(_) => extend_zeros(out, len, slots as usize),
        }
    }

    fn slots(rows: &TreeRows<'a, B>, row: u32) -> TreeSlots<'a, B> {
        match *rows {
            TreeRows::Bodies(bodies) => TreeSlots::Slots(bodies[row as usize].slots.as_slice()),
            TreeRows::Body(body) => TreeSlots::Slots(body.slots.as_slice()),
            TreeRows::Slots(slots) => TreeSlots::Slots(slots),
        }
    }

    ghost one = { λ s k v w hv hw. hv.is ∙ sym hw.is };
}

/// Appends the first `words` words of the row `body`, and zeros in place of the first `slots` slots.
fn push_body<B: Allocator>(
    body: &Body<B>,
    words: usize,
    slots: usize,
    out: &mut [u8],
    len: usize,
) -> usize
    requires wide { words ≤ length body.now.words }
    requires room { 8 * (len + (words + slots)) ≤ length out.old }
    ensures { Appends len result (take words body.now.words ++ replicate slots 0) out.old out.new }
{
    let end = extend_octs(out, len, &body.words.as_slice()[..words]);
    extend_zeros(out, end, slots)
}

/// Appends, for each row of `bodies`, the first `words` words and then zeros in place of the first `slots` slots.
fn push_bodies<B: Allocator>(
    bodies: &[Body<B>],
    words: usize,
    slots: usize,
    out: &mut [u8],
    len: usize,
) -> usize
    requires wide { AreWide words slots (rows_of bodies.now) }
    requires room { 8 * (len + count_rows (rows_of bodies.now) * (words + slots)) ≤ length out.old }
    ensures { Appends len result (zero_rows words slots (rows_of bodies.now)) out.old out.new }
{
    let mut end = len;
    for row in bodies {
        end = push_body(row, words, slots, out, end);
    }
    end
}

/// Returns the item of a slot that has `value`.
#[tactic(auto, using(capn_value::specs::Views::views))]
fn item_of<B: Allocator>(value: &Value<B>) -> Item<TreeNumbers<'_>, TreeRows<'_, B>>
    requires { Sound (tree_of value.now) }
    ensures { IsItem PacksNumbers AreBodies result (tree_of value.now) }
{
    match value {
        Value::Nil => Item::Nil,
        Value::Cap(index) => Item::Cap(*index),
        Value::Node(body) => Item::Struct(TreeRows::Body(body)),
        Value::Voids(count) => Item::Numbers(TreeNumbers::Voids, Width::W0, *count),
        Value::Bits(xs) => {
            let xs = xs.as_slice();
            Item::Numbers(TreeNumbers::Bits(xs), Width::W1, xs.len() as u32)
        }
        Value::Bytes(xs) => {
            let xs = xs.as_slice();
            Item::Numbers(TreeNumbers::Bytes(xs), Width::W8, xs.len() as u32)
        }
        Value::Pairs(xs) => {
            let xs = xs.as_slice();
            Item::Numbers(TreeNumbers::Pairs(xs), Width::W16, xs.len() as u32)
        }
        Value::Quads(xs) => {
            let xs = xs.as_slice();
            Item::Numbers(TreeNumbers::Quads(xs), Width::W32, xs.len() as u32)
        }
        Value::Octs(xs) => {
            let xs = xs.as_slice();
            Item::Numbers(TreeNumbers::Octs(xs), Width::W64, xs.len() as u32)
        }
        Value::Links(items) => {
            let slots = items.as_slice();
            Item::Links(TreeRows::Slots(slots), slots.len() as u32)
        }
        Value::Rows(rows) => {
            let bodies = rows.as_slice();
            Item::Rows(TreeRows::Bodies(bodies), bodies.len() as u32)
        }
    }
}
