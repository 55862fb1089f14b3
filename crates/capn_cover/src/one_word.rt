//! One word of a message, which a visit covers once more.

ghost use Rattle.std.specs.Prelude.{◌≡◌, ◌<◌, ◌+◌, ◌^◌, ◌||◌};
ghost use Rattle.capn_words.specs.Message.{IsMessage};
ghost use Rattle.capn_cover.specs.Numbers.{CountsBefore};
ghost use Rattle.capn_cover.specs.Parts as parts;
ghost use Rattle.capn_cover.specs.inner.Knows.{Knows};
ghost use Rattle.capn_cover.specs.inner.Laid as spec;

use crate::comparison::{Comparison, differs_from};
use crate::covered::{Covered, Role};
use capn_words::Space;

/// Changes the holder of the word `cell` as the visit of the slot with the number `slot` does, which covers the word in
/// the given `role`. The holder of a word that is followed already stays.
#[inline(always)]
fn hold(cell: &mut Covered, slot: u32, role: Role)
    ensures { cell.new
        ≡ record cell.old { holder = spec.holder_after cell.old.is_followed cell.old.holder slot role } }
{
    if !cell.is_followed && role.is_read() {
        cell.holder = slot;
    }
}

/// Tests whether the word `cell`, which something has covered, is an overlap once the visit of the slot with the number
/// `slot` covers it again in the given `role`. `known` is the last comparison of that visit. Element `s` of `before` is
/// the number of words before segment `s`.
#[inline(always)]
fn is_overlap<S: Space>(
    space: &S,
    before: &[u32],
    known: &mut Comparison,
    cell: Covered,
    slot: u32,
    role: Role,
) -> bool
    requires message { IsMessage (S.message space.now) }
    requires counts { CountsBefore (S.message space.now) before.now }
    requires known { Knows (S.message space.now) slot role known.old }
    ensures is { result ≡ (cell.overlap || parts.differs (S.message space.now) cell.slot cell.role slot role) }
    ensures known { Knows (S.message space.now) slot role known.new }
{
    if cell.overlap {
        return true;
    }
    differs_from(space, before, known, cell.slot, cell.role, slot, role)
}

/// Covers the word `cell`, which something has covered, once more by the visit of the slot with the number `slot`, in
/// the given `role`. `differs` is set if that visit makes the word an overlap.
#[inline(always)]
pub fn cover_again(cell: &mut Covered, differs: bool, slot: u32, role: Role)
    requires room { cell.old.times + 1 < 2 ^ 32 }
    ensures { cell.new ≡ record cell.old {
      times = cell.old.times + 1;
      holder = spec.holder_after cell.old.is_followed cell.old.holder slot role;
      overlap = cell.old.overlap || differs;
    } }
{
    hold(cell, slot, role);
    if differs {
        cell.overlap = true;
    }
    cell.times += 1;
}

/// Covers the word `cell` once more, in the given `role`, by the visit of the slot with the number `slot`, whose last
/// comparison is `known`. Element `s` of `before` is the number of words before segment `s`.
#[inline(always)]
pub fn cover_cell<S: Space>(
    space: &S,
    before: &[u32],
    cell: &mut Covered,
    known: &mut Comparison,
    slot: u32,
    role: Role,
)
    requires message { IsMessage (S.message space.now) }
    requires counts { CountsBefore (S.message space.now) before.now }
    requires known { Knows (S.message space.now) slot role known.old }
    requires room { cell.old.times + 1 < 2 ^ 32 }
    ensures covered { cell.new ≡ spec.once_more (S.message space.now) slot role cell.old }
    ensures known { Knows (S.message space.now) slot role known.new }
{
    if cell.times == 0 {
        hold(cell, slot, role);
        *cell = Covered {
            times: 1,
            slot,
            holder: cell.holder,
            role,
            overlap: false,
            is_followed: cell.is_followed,
            cut: false,
        };
        return;
    }
    let overlap = is_overlap(space, before, known, *cell, slot, role);
    cover_again(cell, overlap, slot, role);
}
