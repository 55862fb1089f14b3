//! The lines of a message whose frame, packing or length is refused.

ghost use Rattle.std.specs.Prelude.{◌≡◌, IfOk, IfErr, string_bytes};
ghost use Rattle.capn_serve.specs.declared.fault.RunFault.TheVariants as faults;
ghost use Rattle.capn_explain.specs.FaultLines as spec;

use crate::what_came::{group, segments, there};
use capn_canon::{FrameFault, Refusal};
use capn_diagnostics::{FrameKey, MessageHead, SegmentsText};
use capn_pack::UnpackFault;
use capn_serve::{Position, RunFault};
use capn_walk::Limits;
use capn_words::{BareFault, MOST_SEGMENTS};
use std::alloc::Allocator;

/// Returns the figures for a refused frame, of which `rest` was read. If the number of segments or words in the table
/// is too great, the figures are that number and the limit. If the frame is cut off, the figures are the number of
/// bytes read and the least number of bytes that the complete frame can have.
fn frame_key(fault: FrameFault, most_words: u32, rest: &[u8]) -> FrameKey
    ensures { result ≡ spec.frame_key fault most_words rest.now }
{
    match fault {
        FrameFault::TooManySegments(count) => {
            FrameKey::Announced(count, u64::from(MOST_SEGMENTS))
        }
        FrameFault::TooManyWords(count) => FrameKey::Announced(count, u64::from(most_words)),
        FrameFault::Cut => there(rest),
        FrameFault::Memory | FrameFault::Empty | FrameFault::Failed => FrameKey::Nothing,
    }
}

/// Returns the figures for a group that is cut off, of which `came` was read. For any other fault there are no figures.
fn packed_key(fault: UnpackFault, came: &[u8]) -> FrameKey
    ensures { result ≡ spec.packed_key fault came.now }
{
    match fault {
        UnpackFault::Cut { at } => group(at, came),
        UnpackFault::Memory | UnpackFault::TooLong { .. } | UnpackFault::Failed => {
            FrameKey::Nothing
        }
    }
}

/// Returns the number of bytes of a bare input that is refused, but at most 2^64 - 1.
fn bare_key(fault: BareFault) -> FrameKey
    ensures { result ≡ spec.bare_key fault }
{
    match fault {
        BareFault::NotWhole(bytes) => FrameKey::There(bytes),
        BareFault::TooLong(words) => FrameKey::There(words.saturating_mul(8)),
    }
}

/// Returns the figures that follow the name of `refusal`. `rest` has the bytes of the message that were read and
/// kept, and `came` the bytes of a group that were read and kept.
fn key_of(refusal: &Refusal, most_words: u32, rest: &[u8], came: &[u8]) -> FrameKey
    ensures { result ≡ spec.key_of refusal.now most_words rest.now came.now }
{
    match refusal {
        Refusal::Frame(fault) => frame_key(*fault, most_words, rest),
        Refusal::Packed(fault) => packed_key(*fault, came),
        Refusal::Bare(fault) => bare_key(*fault),
        _ => FrameKey::Nothing,
    }
}

/// Returns the segments of a message whose frame is refused. `None` means that there are too many segments, or that
/// `rest` does not have all their sizes.
fn frame_segments(fault: FrameFault, rest: &[u8]) -> Option<SegmentsText>
    ensures { result ≡ spec.frame_segments fault rest.now }
{
    match fault {
        FrameFault::TooManySegments(_) => None,
        _ => segments(rest),
    }
}

/// Returns the segments of a message that is refused for its frame or its packing. Returns `None` for any other
/// `refusal`, for too many segments, and if `rest` does not have the sizes of all segments.
fn segments_at(refusal: &Refusal, rest: &[u8]) -> Option<SegmentsText>
    ensures { result ≡ spec.segments_at refusal.now rest.now }
{
    match refusal {
        Refusal::Frame(fault) => frame_segments(*fault, rest),
        Refusal::Packed(_) => segments(rest),
        _ => None,
    }
}

/// Returns the lines of the message at `at`, which is refused before its walk. `rest` has the bytes of the message that
/// were read and kept, and `came` the bytes of a group that were read and kept.
pub(crate) fn fault_lines<A: Allocator>(
    alloc: A,
    limits: Limits,
    at: Position,
    refusal: &Refusal,
    rest: &[u8],
    came: &[u8],
) -> Result<String<A>, RunFault>
    ensures found { IfOk result (λ lines.
        string_bytes lines ≡ spec.fault_lines limits at refusal.now rest.now came.now) }
    ensures only { IfErr result (λ e. e ≡ faults.Memory) }
{
    let head = MessageHead {
        index: at.index,
        offset: at.offset,
        segments: segments_at(refusal, rest),
    };
    let key = key_of(refusal, limits.message_words(), rest, came);
    Ok(format!(in alloc; "{head}refused: {refusal}\n{key}")?)
}
