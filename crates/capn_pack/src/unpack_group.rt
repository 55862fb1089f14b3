//! The unpacking of one group of any length.
ghost use Rattle.std.specs.Prelude.{◌≡◌, ◌<◌, length, slice_index};
ghost use Rattle.capn_pack.specs.inner.Steps.{TakeGives};

use crate::lanes::spread;
use crate::room::words_room;
use std::alloc::{AllocError, Allocator};

/// The greatest number of bytes of a group: a tag, a word, a count and 255 words. An unfinished group has fewer.
pub(crate) const GROUP: usize = 2050;

/// The greatest number of words of a group.
pub(crate) const WORDS: usize = 256;

/// The reason why a group is not read.
#[derive(Clone, Copy)]
pub(crate) enum Stop {
    /// An allocation was refused.
    Memory,
    /// The bytes end within the group.
    Cut,
    /// The group has more words than are left of the maximum.
    TooLong,
}

impl From<AllocError> for Stop {
    ghost use Rattle.capn_pack.specs.declared.unpack_group.Stop.TheVariants.{Memory};

    ghost from_gives = { λ _ e. e ≡ Memory };

    fn from(_error: AllocError) -> Self {
        Stop::Memory
    }
}

/// The size of a group, or of a row of groups, that was read.
#[derive(Clone, Copy)]
pub(crate) struct Taken {
    /// The number of bytes of the group or row.
    pub bytes: usize,
    /// The number of words of the group or row.
    pub words: usize,
}

/// Reads the group of zero words at the front of `rest`. If the group is complete and has at most `room` words, appends
/// them to `out`.
#[inline(always)]
fn take_zeros<A: Allocator>(rest: &[u8], room: usize, out: &mut Vec<u8, A>) -> Result<Taken, Stop>
    requires some { 0 < length rest.now }
    requires tag { slice_index rest.now 0 ≡ 0 }
    ensures { TakeGives rest.now room out.old.items result out.new.items }
{
    if rest.len() < 2 {
        return Err(Stop::Cut);
    }
    let words = 1 + rest[1] as usize;
    if words > room {
        return Err(Stop::TooLong);
    }
    let len = out.len();
    out.resize(len + 8 * words, 0)?;
    Ok(Taken { bytes: 2, words })
}

/// Reads the group at the front of `rest`, whose tag names one to seven bytes. If the group is complete and `room` is
/// at least 1, appends the group's word to `out`.
fn take_named<A: Allocator>(rest: &[u8], room: usize, out: &mut Vec<u8, A>) -> Result<Taken, Stop>
    requires some { 0 < length rest.now }
    requires above { 0 < slice_index rest.now 0 }
    requires below { slice_index rest.now 0 < 255 }
    ensures { TakeGives rest.now room out.old.items result out.new.items }
{
    let tag = rest[0];
    let named = tag.count_ones() as usize;
    if rest.len() <= named {
        return Err(Stop::Cut);
    }
    if room < 1 {
        return Err(Stop::TooLong);
    }
    let word = spread(tag, &rest[1..]);
    out.extend_from_slice(&word)?;
    Ok(Taken {
        bytes: 1 + named,
        words: 1,
    })
}

/// Reads the raw group at the front of `rest`. If the group is complete and has at most `room` words, appends them to
/// `out`.
#[inline(always)]
fn take_raw<A: Allocator>(rest: &[u8], room: usize, out: &mut Vec<u8, A>) -> Result<Taken, Stop>
    requires some { 0 < length rest.now }
    requires tag { slice_index rest.now 0 ≡ 255 }
    ensures { TakeGives rest.now room out.old.items result out.new.items }
{
    if rest.len() < 10 {
        return Err(Stop::Cut);
    }
    let more = rest[9] as usize;
    if 1 + more > room {
        return Err(Stop::TooLong);
    }
    let bytes = 10 + 8 * more;
    if rest.len() < bytes {
        return Err(Stop::Cut);
    }
    let ahead = words_room(out, 8 + 8 * more, rest, room);
    out.reserve(ahead)?;
    out.extend_from_slice(&rest[1..9])?;
    out.extend_from_slice(&rest[10..bytes])?;
    Ok(Taken {
        bytes,
        words: 1 + more,
    })
}

/// Reads the first group of `rest`. If the group is complete and has at most `room` words, appends them to `out`.
pub(crate) fn take_group<A: Allocator>(
    rest: &[u8],
    room: usize,
    out: &mut Vec<u8, A>,
) -> Result<Taken, Stop>
    requires { 0 < length rest.now }
    ensures { TakeGives rest.now room out.old.items result out.new.items }
{
    match rest[0] {
        0 => take_zeros(rest, room, out),
        255 => take_raw(rest, room, out),
        _ => take_named(rest, room, out),
    }
}
