//! The examination of the slot at which the walk over a message was refused.

ghost use Rattle.std.specs.Prelude.{◌≡◌, ◌<◌, ◌≤◌, ◌^◌, pos, ◌+ℤ◌, IfSome};
ghost use Rattle.capn_words.specs.Message.{IsPlace};
ghost use Rattle.capn_target.specs.Target.{pointer_in};
ghost use Rattle.capn_diagnostics.specs.Slot as spec;

use crate::examined::{Examined, Limit, Stretch};
use crate::pads::{pad_by, pad_stretch};
use crate::price::asked;
use crate::slot_text::SlotText;
use crate::tags::{rows_of, tag_in};
use crate::telling::{Telling, told_by, words_told};
use capn_target::{Fault, pointer_at, segment_length};
use capn_walk::{Limits, Stopped};
use capn_words::{Place, Pointer, Space};

/// Returns the number of the word that lies `offset` words after word `from`. The result may be negative.
fn led(from: u64, offset: i32) -> i64
    requires { from < 2 ^ 42 }
    ensures { result ≡ (pos from +ℤ offset) }
{
    from as i64 + offset as i64
}

/// Returns the words to which the reference `told` of a pointer leads.
fn stretch_of<S: Space>(space: &S, told: Telling) -> Stretch
    requires { told.from ≤ 2 ^ 32 }
    ensures { result ≡ spec.stretch (S.message space.now) told }
{
    let past = told.from + words_told(told.form);
    Stretch {
        segment: told.segment,
        start: led(told.from, told.offset),
        end: led(past, told.offset),
        length: segment_length(space, told.segment),
    }
}

/// Returns the words to which the reference `told` of a pointer leads, or `None` if `told` is `None`.
fn stretch_told<S: Space>(space: &S, told: Option<Telling>) -> Option<Stretch>
    requires { IfSome told (λ t. t.from ≤ 2 ^ 32) }
    ensures { result ≡ spec.stretch_told (S.message space.now) told }
{
    match told {
        Some(told) => Some(stretch_of(space, told)),
        None => None,
    }
}

/// Returns the words that the `fault` of the slot at `at` is about. For `Range` and `TagOverrun`, these words are the
/// content. For `PadRange`, they are the landing pad. Returns `None` for any other fault.
fn content_of<S: Space>(
    space: &S,
    at: Place,
    pointer: Pointer,
    told: Option<Telling>,
    fault: Fault,
) -> Option<Stretch>
    requires pointer { pointer ≡ pointer_in (S.message space.now) at.segment at.word }
    requires told { told ≡ spec.told (S.message space.now) at }
    requires small { IfSome told (λ t. t.from ≤ 2 ^ 32) }
    ensures { result ≡ spec.content_of (S.message space.now) at fault }
{
    match fault {
        Fault::Range => stretch_told(space, told),
        Fault::TagOverrun => stretch_told(space, told),
        Fault::PadRange => pad_stretch(space, pointer),
        _ => None,
    }
}

/// Returns the limit that the fault of `stopped` is about, or `None` if there is no such limit.
fn limit_of<S: Space>(space: &S, limits: Limits, stopped: Stopped) -> Option<Limit>
    requires { IsPlace (S.message space.now) stopped.place }
    ensures { result ≡ spec.limit_of (S.message space.now) limits stopped.place stopped.paid stopped.fault }
{
    match stopped.fault {
        Fault::TooDeep => Some(Limit::Depth(limits.depth())),
        Fault::OverBudget => {
            let asks = asked(space, limits.tariff(), stopped.place);
            let budget = limits.budget();
            Some(Limit::Budget(asks, budget.saturating_sub(stopped.paid), budget))
        }
        Fault::NoSegment => Some(Limit::Segments(space.segments())),
        _ => None,
    }
}

/// Returns the word at `at` with its offset in bytes, or `None` if `at` is `None`.
fn placed_some<S: Space>(space: &S, offset: u64, table: u32, at: Option<Place>) -> Option<SlotText>
    requires { IfSome at (λ at. IsPlace (S.message space.now) at) }
    ensures { result ≡ spec.placed_some (S.message space.now) offset table at }
{
    match at {
        Some(at) => Some(SlotText::at(space, offset, table, at)),
        None => None,
    }
}

/// Examines the slot at which the walk over the message `space` was refused within `limits`.
///
/// `offset` is the byte of the stream at which the message's table begins. `table` is the number of words of that
/// table, and 0 for a bare segment. The place in `stopped` has to be a place of the message. Each fault of a refused
/// walk other than `NoRoot` has such a place. The call reads at most twelve words, asks for the length of each segment
/// a few times, and takes no memory.
pub fn examine<S: Space>(
    space: &S,
    offset: u64,
    table: u32,
    limits: Limits,
    stopped: Stopped,
) -> Examined
    requires { IsPlace (S.message space.now) stopped.place }
    ensures slot { result.slot ≡ spec.placed (S.message space.now) offset table stopped.place }
    ensures pad { result.pad ≡ spec.pad_of (S.message space.now) offset table stopped.place }
    ensures tag { result.tag ≡ spec.tag_of (S.message space.now) offset table stopped.place }
    ensures content { result.content ≡ spec.content_of (S.message space.now) stopped.place stopped.fault }
    ensures rows { result.rows ≡ spec.rows_of (S.message space.now) stopped.place stopped.fault }
    ensures limit { result.limit ≡
        spec.limit_of (S.message space.now) limits stopped.place stopped.paid stopped.fault }
{
    let at = stopped.place;
    let fault = stopped.fault;
    let pointer = pointer_at(space, at.segment, at.word);
    let told = told_by(space, at, pointer);
    let tag = tag_in(space, told);
    Examined {
        slot: SlotText::at(space, offset, table, at),
        pad: pad_by(space, offset, table, pointer),
        tag: placed_some(space, offset, table, tag),
        content: content_of(space, at, pointer, told, fault),
        rows: rows_of(space, at, told, tag, fault),
        limit: limit_of(space, limits, stopped),
    }
}
