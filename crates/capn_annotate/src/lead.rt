//! The places to which slots and pointers lead.

ghost use Rattle.std.specs.Prelude.{◌≡◌};
ghost use Rattle.capn_words.specs.Message.{IsMessage};
ghost use Rattle.capn_target.specs.Shapes.{IsInMessage};
ghost use Rattle.capn_cover.specs.Numbers.{CountsBefore};
ghost use Rattle.capn_annotate.specs.Leads as spec;

use capn_cover::place_of;
use capn_target::start_of;
use capn_walk::{Fault, Target, resolve};
use capn_words::{Place, Pointer, Space, split};

/// Returns what the slot with the number `slot` leads to, or `Nil` if there is no such slot or its pointer has a fault.
/// Element `s` of `before` is the number of words before segment `s`.
#[inline(never)]
pub fn leads_to<S: Space>(space: &S, before: &[u32], slot: u32) -> Target
    requires message { IsMessage (S.message space.now) }
    requires counts { CountsBefore (S.message space.now) before.now }
    ensures is { result ≡ spec.leads_to (S.message space.now) slot }
    ensures inside { IsInMessage (S.message space.now) result }
{
    match place_of(space, before, slot) {
        Some(at) => match resolve(space, at) {
            Ok(target) => target,
            Err(_) => Target::Nil,
        },
        None => Target::Nil,
    }
}

/// Returns the place at word `start` of `segment`, or `None` if the start of the content is out of range.
fn start_place(segment: u32, start: Result<u64, Fault>) -> Option<Place>
    ensures { result ≡ spec.start_place segment start }
{
    match start {
        Ok(word) => {
            if word < 1 << 32 {
                Some(Place {
                    segment,
                    word: word as u32,
                })
            } else {
                None
            }
        }
        Err(_) => None,
    }
}

/// Returns the place at which the content of the struct or list pointer `pointer` starts. The pointer is at `at`. The
/// result is `None` for any other pointer.
pub fn content_place(at: Place, pointer: Pointer) -> Option<Place>
    ensures { result ≡ spec.content_place at pointer }
{
    match pointer {
        Pointer::Node { offset, .. } => start_place(at.segment, start_of(at.word, offset)),
        Pointer::Many { offset, .. } => start_place(at.segment, start_of(at.word, offset)),
        _ => None,
    }
}

/// Tests whether the slot with the number `slot` has a far pointer whose landing pad is one word. Element `s` of
/// `before` is the number of words before segment `s`.
pub fn has_one_pad<S: Space>(space: &S, before: &[u32], slot: u32) -> bool
    requires message { IsMessage (S.message space.now) }
    requires counts { CountsBefore (S.message space.now) before.now }
    ensures { result ≡ spec.has_one_pad (S.message space.now) slot }
{
    match place_of(space, before, slot) {
        Some(at) => is_single_far(split(space.word(at))),
        None => false,
    }
}

/// Tests whether `pointer` is a far pointer whose landing pad is one word.
fn is_single_far(pointer: Pointer) -> bool
    ensures { result ≡ spec.is_single_far pointer }
{
    match pointer {
        Pointer::Far { double, .. } => !double,
        _ => false,
    }
}
