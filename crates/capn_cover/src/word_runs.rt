//! Words one after another, each of which one visit covers once more.

ghost use Rattle.std.specs.Prelude.{◌≡◌, ◌≤◌, ◌<◌, ◌+◌, if◌then◌else◌, length};
ghost use Rattle.capn_words.specs.Message.{IsMessage, most_words};
ghost use Rattle.capn_cover.specs.Numbers.{CountsBefore};
ghost use Rattle.capn_cover.specs.Covers.{run};
ghost use Rattle.capn_cover.specs.inner.Knows.{Knows};
ghost use Rattle.capn_cover.specs.inner.Laid.{laid, touched, touched_in, followed_in, HasRoom, IsFollowed};

use crate::comparison::Comparison;
use crate::covered::{Covered, Role};
use crate::one_word::{cover_again, cover_cell};
use capn_words::Space;

/// Marks the word with the number `slot` as followed.
#[inline(always)]
fn follow(cells: &mut [Covered], slot: u32)
    requires { slot < length cells.old }
    ensures { cells.new ≡ followed_in slot cells.old }
{
    cells[slot as usize].is_followed = true;
}

/// Covers the word with the number `word` once more, by the visit of the slot with the number `slot`, which is marked
/// as followed and whose last comparison is `known`.
#[inline(always)]
fn touch<S: Space>(
    space: &S,
    before: &[u32],
    cells: &mut [Covered],
    known: &mut Comparison,
    word: u32,
    slot: u32,
    role: Role,
)
    requires message { IsMessage (S.message space.now) }
    requires counts { CountsBefore (S.message space.now) before.now }
    requires known { Knows (S.message space.now) slot role known.old }
    requires within { word < length cells.old }
    requires room { HasRoom 1 cells.old }
    ensures cells { cells.new ≡ touched_in (S.message space.now) word slot role cells.old }
    ensures known { Knows (S.message space.now) slot role known.new }
{
    cover_cell(space, before, &mut cells[word as usize], known, slot, role);
}

/// Covers the word with the number `word` once more, by the visit of the slot with the number `slot`, whose last
/// comparison is `known`.
#[inline(always)]
#[tactic(auto, using(crate::proofs::LaidItems::room_followed, crate::proofs::LaidItems::length_followed))]
fn cover_next<S: Space>(
    space: &S,
    before: &[u32],
    cells: &mut [Covered],
    known: &mut Comparison,
    word: u32,
    slot: u32,
    role: Role,
)
    requires message { IsMessage (S.message space.now) }
    requires counts { CountsBefore (S.message space.now) before.now }
    requires known { Knows (S.message space.now) slot role known.old }
    requires within { word < length cells.old }
    requires by { slot < length cells.old }
    requires room { HasRoom 1 cells.old }
    ensures cells { cells.new
        ≡ touched (S.message space.now) (record { word = word; slot = slot; role = role }) cells.old }
    ensures known { Knows (S.message space.now) slot role known.new }
{
    follow(cells, slot);
    touch(space, before, cells, known, word, slot, role);
}

/// Covers the word with the number `word` once more, by the visit of the slot with the number `slot`.
#[inline(always)]
pub fn cover_word<S: Space>(
    space: &S,
    before: &[u32],
    cells: &mut [Covered],
    word: u32,
    slot: u32,
    role: Role,
)
    requires message { IsMessage (S.message space.now) }
    requires counts { CountsBefore (S.message space.now) before.now }
    requires within { word < length cells.old }
    requires by { slot < length cells.old }
    requires room { HasRoom 1 cells.old }
    ensures { cells.new ≡ touched (S.message space.now) (record { word = word; slot = slot; role = role }) cells.old }
{
    let mut known = Comparison::of_itself(slot, role);
    cover_next(space, before, cells, &mut known, word, slot, role);
}

/// Covers the word with the number `word` once more if the comparison `known` is of it, and tells whether it is. The
/// visit is that of the slot with the number `slot`, which is marked as followed.
#[inline(always)]
fn touch_known<S: Space>(
    _space: &S,
    cells: &mut [Covered],
    known: Comparison,
    word: usize,
    slot: u32,
    role: Role,
) -> bool
    requires known { Knows (S.message _space.now) slot role known }
    requires within { word < length cells.old }
    requires room { HasRoom 1 cells.old }
    ensures { cells.new
        ≡ (if result then touched_in (S.message _space.now) word slot role cells.old else cells.old) }
{
    let cell = cells[word];
    if cell.times == 0 || known.slot != cell.slot {
        return false;
    }
    if known.role.is_of_object() && cell.role.is_of_object() {
        cover_again(&mut cells[word], known.differs, slot, role);
        return true;
    }
    false
}

/// Covers words from the number `first` on, at most `count`, as long as the comparison `known` is of them, and returns
/// how many it covers. The visit is that of the slot with the number `slot`, which is marked as followed.
#[inline(always)]
fn cover_known<S: Space>(
    space: &S,
    cells: &mut [Covered],
    known: Comparison,
    first: u32,
    count: u32,
    slot: u32,
    role: Role,
) -> u32
    requires known { Knows (S.message space.now) slot role known }
    requires within { first + count ≤ length cells.old }
    requires followed { IsFollowed slot cells.old }
    requires few { length cells.old ≤ most_words }
    requires room { HasRoom count cells.old }
    ensures count { result ≤ count }
    ensures cells { cells.new ≡ laid (S.message space.now) (run slot role first result) cells.old }
    ensures followed { IsFollowed slot cells.new }
{
    let start = first as usize;
    for i in 0..count {
        if !touch_known(space, cells, known, start + i as usize, slot, role) {
            return i;
        }
    }
    count
}

/// Covers `count` words from the number `first` on, each once more, by the visit of the slot with the number `slot`,
/// whose last comparison is `known`.
#[inline(always)]
pub fn cover_words<S: Space>(
    space: &S,
    before: &[u32],
    cells: &mut [Covered],
    known: &mut Comparison,
    first: u32,
    count: u32,
    slot: u32,
    role: Role,
)
    requires message { IsMessage (S.message space.now) }
    requires counts { CountsBefore (S.message space.now) before.now }
    requires known { Knows (S.message space.now) slot role known.old }
    requires within { first + count ≤ length cells.old }
    requires by { slot < length cells.old }
    requires few { length cells.old ≤ most_words }
    requires room { HasRoom count cells.old }
    ensures cells { cells.new ≡ laid (S.message space.now) (run slot role first count) cells.old }
    ensures known { Knows (S.message space.now) slot role known.new }
{
    if count == 0 {
        return;
    }
    follow(cells, slot);
    let mut done = 0;
    'words: while done < count {
        touch(space, before, cells, known, first + done, slot, role);
        done += 1;
        // The loop of `cover_known` is only for a visit that has compared its object with another one.
        if known.slot != slot {
            done += cover_known(space, cells, *known, first + done, count - done, slot, role);
        }
    }
}

/// Covers `count` words from the number `first` on, each once more.
#[inline(always)]
pub fn cover_run<S: Space>(
    space: &S,
    before: &[u32],
    cells: &mut [Covered],
    first: u32,
    count: u32,
    slot: u32,
    role: Role,
)
    requires message { IsMessage (S.message space.now) }
    requires counts { CountsBefore (S.message space.now) before.now }
    requires within { first + count ≤ length cells.old }
    requires by { slot < length cells.old }
    requires few { length cells.old ≤ most_words }
    requires room { HasRoom count cells.old }
    ensures { cells.new ≡ laid (S.message space.now) (run slot role first count) cells.old }
{
    let mut known = Comparison::of_itself(slot, role);
    cover_words(space, before, cells, &mut known, first, count, slot, role);
}
