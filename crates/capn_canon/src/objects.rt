//! The tests of the one pass for a single object at the next free word: its layout, its price, and the slots it opens.
//! Any change here that alters which bytes it accepts makes a new version of the canonical form.

ghost use Rattle.std.specs.Prelude.{◌≡◌, ◌+◌, ◌-◌, ◌*◌, ◌%◌, ◌^◌, ◌<◌, ◌≤◌, [], ◌∷◌, slice_index, IfSome, IsSome};
ghost use Rattle.capn_words.specs.Message.{IsMessage};
ghost use Rattle.capn_words.specs.declared.pointer.Width.TheVariants.{Link, Rows};
ghost use Rattle.capn_target.specs.Shapes.{IsPlain};
ghost use Rattle.capn_canon.specs.inner.Due.{DueFirst, DueIn, DueRowsIn};
ghost use Rattle.capn_canon.specs.inner.InPlace.{IsOpen, HasObject, HasList, FindsPlain, Opens, OpensRows};
ghost use Rattle.capn_canon.specs.inner.PassReads.{may_read};

use crate::counted_words::{CountedWords, word_at, words_of};
use crate::own_words_test::{are_bits_at, are_rows_at, is_kept, tag_of};
use crate::progress::{Pass, Progress, RowPass};
use capn_layout::bits_of;
use capn_target::counted::Reads;
use capn_words::{Space, Width};
use std::sync::ledger::Ledger;

/// Opens the struct at the next free word. `word` is the first slot of `pass` and points to the struct. Returns the
/// slots of the struct. Returns `None` if the struct is empty, is out of range or costs too much, or if its last data
/// word or its last slot is zero.
#[inline(always)]
pub fn open_struct<S: Space, L: Ledger>(
    space: &CountedWords<'_, S, L>,
    base: u32,
    word: u64,
    pass: Pass,
    reads: &mut Reads<L>,
) -> Option<Pass>
    requires message { IsMessage (space.now ∷ []) }
    requires object { HasObject space.now pass }
    requires word { word ≡ slice_index space.now pass.from }
    requires near { word % 2 ^ 32 ≡ 4 * (pass.next - pass.from - 1) }
    ensures found { IfSome result (λ r. (pass.from < r.from) × IsOpen space.now r × Opens space.now base pass r) }
    ensures deeper { IfSome result (λ r. r.depth < pass.depth) }
    ensures only { 0 < word → DueFirst space.now base pass → DueIn space.now base result }
    ensures reads { IfSome result (λ r. reads.new + may_read r ≤ reads.old + 10 * pass.left + 3) }
    ensures most { reads.new ≤ reads.old + 3 }
{
    let tag = tag_of(word);
    let words = tag.words as u32;
    let slots = tag.slots as u32;
    let from = pass.next + words;
    let end = from + slots;
    if end > words_of(space, reads) || words + slots == 0 {
        return None;
    }
    if !is_kept(space, pass.next, words, reads) || !is_kept(space, from, slots, reads) {
        return None;
    }
    match pass.paid(base as u64 + words as u64 + slots as u64, end, slots) {
        Some(progress) => Some(Pass {
            from,
            end,
            depth: pass.depth - 1,
            next: progress.next,
            left: progress.left,
            visits: progress.visits,
        }),
        None => None,
    }
}

/// Tests the list of `count` numbers at the next free word. The first slot of `pass` points to the list. Returns the
/// progress after the list. Returns `None` if the list is out of range, costs too much, or has bits set after its last
/// element.
#[inline(always)]
pub fn check_numbers<S: Space, L: Ledger>(
    space: &CountedWords<'_, S, L>,
    base: u32,
    width: Width,
    count: u32,
    pass: Pass,
    reads: &mut Reads<L>,
) -> Option<Progress>
    requires message { IsMessage (space.now ∷ []) }
    requires list { HasList space.now pass width count }
    requires plain { IsPlain width }
    ensures found { IfSome result (λ q. FindsPlain space.now base pass q) }
    ensures only { DueFirst space.now base pass → IsSome result }
    ensures pays { IfSome result (λ q. q.left ≤ pass.left) }
    ensures reads { reads.new ≤ reads.old + 2 }
{
    let bits = bits_of(width) * count as u64;
    let words = bits.div_ceil(64);
    let end = pass.next as u64 + words;
    if end > words_of(space, reads) as u64 || !are_bits_at(space, bits, pass.next, reads) {
        return None;
    }
    let without_size = if let Width::W0 = width { count } else { 0 };
    pass.paid(base as u64 + words + without_size as u64, end as u32, 0)
}

/// Opens the list of `count` pointers at the next free word. The first slot of `pass` points to the list. Returns the
/// elements as slots. Returns `None` if the list is out of range or costs too much.
#[inline(always)]
pub fn open_pointers<S: Space, L: Ledger>(
    space: &CountedWords<'_, S, L>,
    base: u32,
    count: u32,
    pass: Pass,
    reads: &mut Reads<L>,
) -> Option<Pass>
    requires message { IsMessage (space.now ∷ []) }
    requires list { HasList space.now pass Link count }
    ensures found { IfSome result (λ r. (pass.from < r.from) × IsOpen space.now r × Opens space.now base pass r) }
    ensures deeper { IfSome result (λ r. r.depth < pass.depth) }
    ensures only { DueFirst space.now base pass → DueIn space.now base result }
    ensures reads { IfSome result (λ r. reads.new + may_read r ≤ reads.old + 10 * pass.left + 1) }
    ensures most { reads.new ≤ reads.old + 1 }
{
    let end = pass.next + count;
    if end > words_of(space, reads) {
        return None;
    }
    match pass.paid(base as u64 + count as u64, end, count) {
        Some(progress) => Some(Pass {
            from: pass.next,
            end,
            depth: pass.depth - 1,
            next: progress.next,
            left: progress.left,
            visits: progress.visits,
        }),
        None => None,
    }
}

/// Opens the list of structs at the next free word. The structs have `span` words together, and the first slot of
/// `pass` points to the list. Returns the rows. Returns `None` if the list is out of range, costs too much, or is not
/// laid out canonically.
#[inline(never)]
pub fn open_composite<S: Space, L: Ledger>(
    space: CountedWords<'_, S, L>,
    base: u32,
    span: u32,
    pass: Pass,
    reads: &mut Reads<L>,
) -> Option<RowPass>
    requires message { IsMessage (space ∷ []) }
    requires list { HasList space pass Rows span }
    ensures found { IfSome result (λ r. (pass.from < r.pass.from) × IsOpen space.entry r.pass
        × (r.pass.from + r.tag.count * (r.tag.words + r.tag.slots) ≡ r.pass.end)
        × OpensRows space.entry base pass r) }
    ensures deeper { IfSome result (λ r. r.pass.depth < pass.depth) }
    ensures only { DueFirst space.entry base pass → DueRowsIn space.entry base result }
    ensures reads { IfSome result (λ r.
        reads.new + 10 * r.pass.left + 8 * (r.tag.count * r.tag.slots) ≤ reads.old + 10 * pass.left + 5) }
    ensures most { reads.new ≤ reads.old + 10 * pass.left + 5 }
{
    let first = pass.next + 1;
    let end = first + span;
    if end > words_of(&space, reads) {
        return None;
    }
    let tag = tag_of(word_at(&space, pass.next, reads));
    let step = tag.words as u32 + tag.slots as u32;
    if tag.count >= 1 << 29 || tag.count as u64 * step as u64 != span as u64 {
        return None;
    }
    let without_size = if step == 0 { tag.count } else { 0 };
    let price = base as u64 + 1 + span as u64 + without_size as u64;
    let Some(progress) = pass.paid(price, end, tag.count * tag.slots as u32) else {
        return None;
    };
    if !are_rows_at(&space, tag, pass.from, pass.next, reads) {
        return None;
    }
    Some(RowPass {
        tag,
        pass: Pass {
            from: first,
            end,
            depth: pass.depth - 1,
            next: progress.next,
            left: progress.left,
            visits: progress.visits,
        },
    })
}
