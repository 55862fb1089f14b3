//! The texts of refusals and positions, as parts of an error line. The name and the place of a refusal stay the same
//! within 1.x (docs/STABILITY.md): programs look for them.

ghost use Rattle.std.specs.Prelude.{◌≡◌, codes, ◌++◌};
ghost use Rattle.capn_words.specs.Display.{bare_text};
ghost use Rattle.capn_words.specs.Watched.{inner_of, has_failed};
ghost use Rattle.capn_serve.specs.Line.{Says, way};
ghost use Rattle.capn_pack.specs.Display.{unpack_text};
ghost use Rattle.capn_stream.specs.Display.{frame_text};
ghost use Rattle.capn_target.specs.Display.{fault_name};
ghost use Rattle.capn_walk.specs.Display.{stopped_text};
ghost use Rattle.capn_canon.specs.Display.{refusal_text};
ghost use Rattle.capn_serve.specs.FaultText.{place_text};

use crate::Line;
use crate::position::{Position, number_of};
use capn_canon::Refusal;
use capn_pack::UnpackFault;
use capn_stream::FrameFault;
use capn_walk::{Fault, Stopped};
use capn_words::{BareFault, Watched};
use std::io::Write;

/// Appends the position of a message to `line`: its number, counted from 1, and its offset.
pub fn say_place<E: Write>(at: &Position, line: &mut Line, errors: &mut Watched<E>)
    ensures { Says (place_text at.now) (way line.old (E.contents (inner_of errors.old)) (has_failed errors.old))
        (way line.new (E.contents (inner_of errors.new)) (has_failed errors.new)) }
{
    // The greatest index plus one does not fit into 64 bits.
    let mut digits = itoa::Buffer::new();
    line.put(digits.format(number_of(at.index)).as_bytes(), errors);
    line.put_named(b" at ", at.offset, errors);
}

/// Appends the reason why bytes are not one segment.
fn say_bare<E: Write>(fault: &BareFault, line: &mut Line, errors: &mut Watched<E>)
    ensures { Says (codes "bare: " ++ bare_text fault.now)
        (way line.old (E.contents (inner_of errors.old)) (has_failed errors.old))
        (way line.new (E.contents (inner_of errors.new)) (has_failed errors.new)) }
{
    match fault {
        BareFault::NotWhole(bytes) => line.put_between(b"bare: NotWhole(", *bytes, b")", errors),
        BareFault::TooLong(words) => line.put_between(b"bare: TooLong(", *words, b")", errors),
    }
}

/// Appends the reason why packed bytes cannot be unpacked.
fn say_unpack<E: Write>(fault: &UnpackFault, line: &mut Line, errors: &mut Watched<E>)
    ensures { Says (codes "packed: " ++ unpack_text fault.now)
        (way line.old (E.contents (inner_of errors.old)) (has_failed errors.old))
        (way line.new (E.contents (inner_of errors.new)) (has_failed errors.new)) }
{
    match fault {
        UnpackFault::Memory => {
            line.put(b"packed: ", errors);
            line.put_memory(errors);
        }
        UnpackFault::Cut { at } => line.put_named(b"packed: Cut at ", *at, errors),
        UnpackFault::TooLong { at } => line.put_named(b"packed: TooLong at ", *at, errors),
        UnpackFault::Failed => line.put(b"packed: Failed", errors),
    }
}

/// Appends the reason why bytes are not a frame.
fn say_frame<E: Write>(fault: &FrameFault, line: &mut Line, errors: &mut Watched<E>)
    ensures { Says (codes "frame: " ++ frame_text fault.now)
        (way line.old (E.contents (inner_of errors.old)) (has_failed errors.old))
        (way line.new (E.contents (inner_of errors.new)) (has_failed errors.new)) }
{
    match fault {
        FrameFault::Memory => {
            line.put(b"frame: ", errors);
            line.put_memory(errors);
        }
        FrameFault::Empty => line.put(b"frame: Empty", errors),
        FrameFault::TooManySegments(count) => {
            line.put_between(b"frame: TooManySegments(", *count, b")", errors)
        }
        FrameFault::TooManyWords(words) => {
            line.put_between(b"frame: TooManyWords(", *words, b")", errors)
        }
        FrameFault::Cut => line.put(b"frame: Cut", errors),
        FrameFault::Failed => line.put(b"frame: Failed", errors),
    }
}

/// Returns the name of a fault of a walk.
fn name_of(fault: Fault) -> &'static [u8]
    ensures { result.now ≡ fault_name fault }
{
    match fault {
        Fault::NoRoot => b"NoRoot",
        Fault::RootKind => b"RootKind",
        Fault::Reserved => b"Reserved",
        Fault::NoSegment => b"NoSegment",
        Fault::PadRange => b"PadRange",
        Fault::BadPad => b"BadPad",
        Fault::Range => b"Range",
        Fault::BadTag => b"BadTag",
        Fault::TagOverrun => b"TagOverrun",
        Fault::TooDeep => b"TooDeep",
        Fault::OverBudget => b"OverBudget",
        Fault::Memory => b"Memory",
    }
}

/// Appends the fault and the place at which a walk stopped, the price paid by then, and the number of visits.
fn say_stopped<E: Write>(stopped: &Stopped, line: &mut Line, errors: &mut Watched<E>)
    ensures { Says (stopped_text stopped.now)
        (way line.old (E.contents (inner_of errors.old)) (has_failed errors.old))
        (way line.new (E.contents (inner_of errors.new)) (has_failed errors.new)) }
{
    line.put(name_of(stopped.fault), errors);
    line.put_named(b" at ", stopped.place.segment as u64, errors);
    line.put_named(b":", stopped.place.word as u64, errors);
    line.put_named(b", paid ", stopped.paid as u64, errors);
    line.put_named(b", visits ", stopped.visits as u64, errors);
}

/// Appends the text of `refusal`, the reason why an input has no canonical bytes.
pub fn say_refusal<E: Write>(refusal: &Refusal, line: &mut Line, errors: &mut Watched<E>)
    ensures { Says (refusal_text refusal.now)
        (way line.old (E.contents (inner_of errors.old)) (has_failed errors.old))
        (way line.new (E.contents (inner_of errors.new)) (has_failed errors.new)) }
{
    match refusal {
        Refusal::Bare(fault) => say_bare(fault, line, errors),
        Refusal::Packed(fault) => say_unpack(fault, line, errors),
        Refusal::Frame(fault) => say_frame(fault, line, errors),
        Refusal::Trailing(at) => line.put_named(b"trailing bytes at ", *at, errors),
        Refusal::Walk(stopped) => say_stopped(stopped, line, errors),
        Refusal::Capability(index) => line.put_named(b"capability ", *index as u64, errors),
        Refusal::Memory => line.put_memory(errors),
    }
}
