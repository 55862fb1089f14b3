//! The one pass that tests whether words are a canonical layout, and finds the number of words that the walk pays. Any
//! change here that alters which bytes it accepts makes a new version of the canonical form.
//!
//! In a canonical layout every object with words begins at the next free word, so no word belongs to two objects. The
//! pass tests that each such object begins at that word and ends within the message, and needs no survey before it.
//!
//! For each slot the pass makes at most seven reads and turns: one loop turn, one read of the slot, and five to test
//! the object that the slot points to. A list of structs needs further reads and turns: at most two for each word of
//! the rows, to test that trimming keeps all words, and a turn for each row with slots. The list's price covers them.

ghost use Rattle.std.specs.Prelude.{◌≡◌, ◌+◌, ◌-◌, ◌*◌, ◌%◌, ◌^◌, ◌<◌, ◌≤◌, [], ◌∷◌, slice_index, IfSome};
ghost use Rattle.capn_words.specs.Message.{IsMessage};
ghost use Rattle.capn_words.specs.declared.pointer.Width.TheVariants.{Rows};
ghost use Rattle.capn_canon.specs.inner.Due.{Due, DueFirst, DueIn, DueRows};
ghost use Rattle.capn_canon.specs.inner.InPlace.{IsOpen, HasObject, HasList, GoesOn, Finds, FindsFirst, FindsRows};
ghost use Rattle.capn_canon.specs.inner.InPlace.{Opens};
ghost use Rattle.capn_canon.specs.inner.PassReads.{may_read, Passes};

use crate::counted_words::{CountedWords, word_at};
use crate::objects::{check_numbers, open_composite, open_pointers, open_struct};
use crate::own_words_test::EMPTY;
use crate::progress::{Pass, Progress, lower};
use capn_target::counted::Reads;
use capn_words::{Pointer, Space, Width, split};
use std::sync::ledger::Ledger;

/// Tests the slots of `pass` and everything below them. Returns the progress after the test. Returns `None` if an
/// object is not laid out canonically, if a slot holds a capability, or if the limit on depth or price is exceeded.
///
/// The measure of the recursion is `pass.depth`. Each level of depth takes at most one frame of the stack, of this
/// function or of [`check_rows`].
#[cycle(pass)]
#[inline(never)]
pub fn check_object<S: Space, L: Ledger, const DEEP: bool>(
    space: CountedWords<'_, S, L>,
    base: u32,
    pass: Pass,
    least: &mut u32,
    reads: &mut Reads<L>,
) -> Option<Progress>
    requires message { IsMessage (space ∷ []) }
    requires opened { IsOpen space pass }
    ensures { Passes (Finds space.entry base DEEP pass least.old) (Due space.entry base pass) (may_read pass) result
        least.new reads.old reads.new }
{
    check_slots::<S, L, DEEP>(&space, base, pass, least, reads)
}

/// Tests the slots of `pass` and everything below them. Returns the progress after the test, or `None` as
/// [`check_object`] does.
#[cycle(pass)]
#[inline(always)]
fn check_slots<S: Space, L: Ledger, const DEEP: bool>(
    space: &CountedWords<'_, S, L>,
    base: u32,
    pass: Pass,
    least: &mut u32,
    reads: &mut Reads<L>,
) -> Option<Progress>
    requires message { IsMessage (space.now ∷ []) }
    requires opened { IsOpen space.now pass }
    ensures { Passes (Finds space.now base DEEP pass least.old) (Due space.now base pass) (may_read pass) result
        least.new reads.old reads.new }
{
    let mut left = pass;
    while left.from < left.end {
        reads.tick();
        match check_slot::<S, L, DEEP>(space, base, left, least, reads) {
            Some(rest) => left = rest,
            None => return None,
        }
    }
    Some(left.here())
}

/// Tests the first slot of `pass` with everything below it. Returns the slots of `pass` after the first. There is one
/// exception: the first slot is also the last, and points to a struct or a list of pointers. Then the slots of that
/// object are returned untested, and the loop of the caller tests these slots.
#[cycle(pass)]
#[inline(always)]
fn check_slot<S: Space, L: Ledger, const DEEP: bool>(
    space: &CountedWords<'_, S, L>,
    base: u32,
    pass: Pass,
    least: &mut u32,
    reads: &mut Reads<L>,
) -> Option<Pass>
    requires message { IsMessage (space.now ∷ []) }
    requires opened { IsOpen space.now pass }
    requires some { pass.from < pass.end }
    ensures found { IfSome result (λ r. GoesOn space.now base DEEP pass least.old r least.new) }
    ensures low { IfSome result (λ r. r.depth ≤ pass.depth) }
    ensures only { Due space.now base pass → DueIn space.now base result }
    ensures reads { IfSome result (λ r. reads.new + 1 + may_read r ≤ reads.old + may_read pass) }
    ensures most { reads.new + 1 ≤ reads.old + may_read pass }
{
    let word = word_at(space, pass.from, reads);
    if word == 0 {
        return Some(pass.behind(pass.here()));
    }
    if pass.depth == 0 {
        return None;
    }
    let low = word % (1 << 32);
    let near = 4 * (pass.next - pass.from - 1) as u64;
    if low == near {
        return check_struct::<S, L, DEEP>(space, base, word, pass, least, reads);
    }
    if low == near + 1 {
        return check_list::<S, L, DEEP>(space, base, word, pass, least, reads);
    }
    if word == EMPTY {
        lower::<DEEP>(least, pass.depth - 1);
        return match pass.paid(base as u64, pass.next, 0) {
            Some(progress) => Some(pass.behind(progress)),
            None => None,
        };
    }
    None
}

/// Tests `word`, the first slot of `pass`, with everything below it. `word` points to a struct at the next free word.
#[cycle(pass)]
#[inline(always)]
fn check_struct<S: Space, L: Ledger, const DEEP: bool>(
    space: &CountedWords<'_, S, L>,
    base: u32,
    word: u64,
    pass: Pass,
    least: &mut u32,
    reads: &mut Reads<L>,
) -> Option<Pass>
    requires message { IsMessage (space.now ∷ []) }
    requires object { HasObject space.now pass }
    requires word { word ≡ slice_index space.now pass.from }
    requires near { word % 2 ^ 32 ≡ 4 * (pass.next - pass.from - 1) }
    ensures found { IfSome result (λ r. GoesOn space.now base DEEP pass least.old r least.new) }
    ensures low { IfSome result (λ r. r.depth ≤ pass.depth) }
    ensures only { 0 < word → Due space.now base pass → DueIn space.now base result }
    ensures reads { IfSome result (λ r. reads.new + 2 + may_read r ≤ reads.old + may_read pass) }
    ensures most { reads.new + 2 ≤ reads.old + may_read pass }
{
    match open_struct(space, base, word, pass, reads) {
        Some(below) => check_below::<S, L, DEEP>(space, base, pass, below, least, reads),
        None => None,
    }
}

/// Tests `below`, the slots of the object that the first slot of `pass` points to, and everything below these slots. If
/// `pass` has only one slot, `below` is returned untested.
#[cycle(pass)]
#[inline(always)]
fn check_below<S: Space, L: Ledger, const DEEP: bool>(
    space: &CountedWords<'_, S, L>,
    base: u32,
    pass: Pass,
    below: Pass,
    least: &mut u32,
    reads: &mut Reads<L>,
) -> Option<Pass>
    requires message { IsMessage (space.now ∷ []) }
    requires object { HasObject space.now pass }
    requires later { pass.from < below.from }
    requires deeper { below.depth < pass.depth }
    requires opened { IsOpen space.now below }
    requires named { Opens space.now base pass below }
    ensures found { IfSome result (λ r. GoesOn space.now base DEEP pass least.old r least.new) }
    ensures low { IfSome result (λ r. r.depth ≤ pass.depth) }
    ensures only { Due space.now base below → Due space.now base pass → DueIn space.now base result }
    ensures reads { IfSome result (λ r.
        reads.new + 7 + may_read r ≤ reads.old + may_read below + 7 * (pass.end - pass.from)) }
    ensures most { reads.new ≤ reads.old + may_read below }
{
    lower::<DEEP>(least, below.depth);
    if pass.from + 1 == pass.end {
        return Some(below);
    }
    match check_first::<S, L, DEEP>(space, base, below, least, reads) {
        Some(progress) => Some(pass.behind(progress)),
        None => None,
    }
}

/// Tests the slots of `pass` and everything below them by [`check_object`]. If there are no slots, nothing is called,
/// and no copy of `pass` is written to the stack.
#[cycle(pass)]
#[inline(always)]
fn check_first<S: Space, L: Ledger, const DEEP: bool>(
    space: &CountedWords<'_, S, L>,
    base: u32,
    pass: Pass,
    least: &mut u32,
    reads: &mut Reads<L>,
) -> Option<Progress>
    requires message { IsMessage (space.now ∷ []) }
    requires opened { IsOpen space.now pass }
    ensures { Passes (Finds space.now base DEEP pass least.old) (Due space.now base pass) (may_read pass) result
        least.new reads.old reads.new }
{
    if pass.from == pass.end {
        return Some(pass.here());
    }
    let object = Pass {
        from: pass.from,
        end: pass.end,
        depth: pass.depth,
        next: pass.next,
        left: pass.left,
        visits: pass.visits,
    };
    check_object::<S, L, DEEP>(space.again(), base, object, least, reads)
}

/// Tests `word`, the first slot of `pass`, with everything below it. `word` points to a list at the next free word.
#[cycle(pass)]
#[inline(always)]
fn check_list<S: Space, L: Ledger, const DEEP: bool>(
    space: &CountedWords<'_, S, L>,
    base: u32,
    word: u64,
    pass: Pass,
    least: &mut u32,
    reads: &mut Reads<L>,
) -> Option<Pass>
    requires message { IsMessage (space.now ∷ []) }
    requires object { HasObject space.now pass }
    requires word { word ≡ slice_index space.now pass.from }
    requires near { word % 2 ^ 32 ≡ 4 * (pass.next - pass.from - 1) + 1 }
    ensures found { IfSome result (λ r. GoesOn space.now base DEEP pass least.old r least.new) }
    ensures low { IfSome result (λ r. r.depth ≤ pass.depth) }
    ensures only { Due space.now base pass → DueIn space.now base result }
    ensures reads { IfSome result (λ r. reads.new + 2 + may_read r ≤ reads.old + may_read pass) }
    ensures most { reads.new + 2 ≤ reads.old + may_read pass }
{
    let Pointer::Many {
        offset: _,
        width,
        count,
    } = split(word)
    else {
        return None;
    };
    match width {
        Width::Link => match open_pointers(space, base, count, pass, reads) {
            Some(below) => check_below::<S, L, DEEP>(space, base, pass, below, least, reads),
            None => None,
        },
        Width::Rows => match check_composite::<S, L, DEEP>(space, base, count, pass, least, reads) {
            Some(progress) => Some(pass.behind(progress)),
            None => None,
        },
        _ => {
            lower::<DEEP>(least, pass.depth - 1);
            match check_numbers(space, base, width, count, pass, reads) {
                Some(progress) => Some(pass.behind(progress)),
                None => None,
            }
        }
    }
}

/// Tests the list of structs at the next free word, with everything below it. The first slot of `pass` points to the
/// list. Returns the progress after the list and everything below it.
#[cycle(pass)]
#[inline(always)]
fn check_composite<S: Space, L: Ledger, const DEEP: bool>(
    space: &CountedWords<'_, S, L>,
    base: u32,
    span: u32,
    pass: Pass,
    least: &mut u32,
    reads: &mut Reads<L>,
) -> Option<Progress>
    requires message { IsMessage (space.now ∷ []) }
    requires list { HasList space.now pass Rows span }
    ensures { Passes (FindsFirst space.now base DEEP pass least.old) (DueFirst space.now base pass)
        (10 * pass.left + 5) result least.new reads.old reads.new }
{
    match open_composite(space.again(), base, span, pass, reads) {
        Some(opened) => {
            let tag = opened.tag;
            let rows = opened.pass;
            lower::<DEEP>(least, rows.depth);
            if tag.slots == 0 {
                return Some(rows.here());
            }
            check_rows::<S, L, DEEP>(
                space.again(),
                base,
                tag.count,
                tag.words,
                tag.slots,
                rows,
                least,
                reads,
            )
        }
        None => None,
    }
}

/// Tests the slots of `count` rows and everything below them. Each row has `words` words and `slots` slots, and `pass`
/// begins at the first row. Returns the progress after the test.
#[cycle(pass)]
#[inline(never)]
fn check_rows<S: Space, L: Ledger, const DEEP: bool>(
    space: CountedWords<'_, S, L>,
    base: u32,
    count: u32,
    words: u16,
    slots: u16,
    pass: Pass,
    least: &mut u32,
    reads: &mut Reads<L>,
) -> Option<Progress>
    requires message { IsMessage (space ∷ []) }
    requires opened { IsOpen space pass }
    requires some { 0 < slots }
    requires inside { pass.from + count * (words + slots) ≡ pass.end }
    ensures { Passes (FindsRows space.entry base DEEP words slots pass.from count pass.next pass.depth pass.left
        pass.visits least.old) (DueRows space.entry base words slots pass.from count pass.next pass.depth pass.left)
        (10 * pass.left + 8 * (count * slots)) result least.new reads.old reads.new }
{
    let mut progress = pass.here();
    let mut row = pass.from;
    for i in 0..count {
        reads.tick();
        let from = row + words as u32;
        let end = from + slots as u32;
        let below = Pass {
            from,
            end,
            depth: pass.depth,
            next: progress.next,
            left: progress.left,
            visits: progress.visits,
        };
        match check_slots::<S, L, DEEP>(&space, base, below, least, reads) {
            Some(behind) => progress = behind,
            None => return None,
        }
        row = end;
    }
    Some(progress)
}
