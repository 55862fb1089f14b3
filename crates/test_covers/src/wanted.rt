//! Words of covers, and the test whether a message has a cover.

use crate::words::bytes_of;
use capn_cover::{Covered, Role, cover};
use capn_stream::first;
use capn_walk::Limits;
use std::alloc::Global;
use std::test::Fail;

/// Returns the word that is covered `times` times, first by the visit of the slot with the number `slot`. If it is a
/// slot in this role, that slot is its holder. Only the root's slot is followed.
pub(crate) fn word(times: u32, slot: u32, role: Role) -> Covered {
    Covered {
        times,
        slot,
        holder: if role == Role::Slot { slot } else { 0 },
        role,
        overlap: false,
        is_followed: role == Role::Root,
        cut: false,
    }
}

/// Returns the word `cell`, left out of its object by canonical bytes.
pub(crate) fn cut(cell: Covered) -> Covered {
    Covered { cut: true, ..cell }
}

/// Returns the word `cell` with the number of the slot through whose object the walk first comes to it.
pub(crate) fn held(holder: u32, cell: Covered) -> Covered {
    Covered { holder, ..cell }
}

/// Returns the word `cell`, followed as a slot.
pub(crate) fn follow(cell: Covered) -> Covered {
    Covered {
        is_followed: true,
        ..cell
    }
}

/// Returns the word that two parts cover which differ, `times` times in all.
pub(crate) fn overlap(times: u32, slot: u32, role: Role) -> Covered {
    Covered {
        overlap: true,
        ..word(times, slot, role)
    }
}

/// Tests whether the message that `words` begin with, after its segment table, has the cover `want`.
pub(crate) fn is_cover(alloc: Global, words: &[u64], want: &[Covered]) -> Result<bool, Fail> {
    let bytes = bytes_of(alloc, words)?;
    let Ok((framed, _)) = first(alloc, bytes.as_slice(), Limits::usual().message_words()) else {
        return Ok(false);
    };
    match cover(alloc, &framed, Limits::usual()) {
        Ok(words) => Ok(words.as_slice() == want),
        Err(_) => Ok(false),
    }
}
