//! The lines that `list` and `list --digest` write for accepted messages and for skipped ones. Within 1.x these lines
//! may only gain words at their end (docs/STABILITY.md).

ghost use Rattle.std.specs.Prelude.{◌≡◌, ◌++◌, codes, IfOk, IfErr, string_bytes};
ghost use Rattle.capn_canon.specs.Display.{refusal_text};
ghost use Rattle.capn_archive.specs.CanonicalFrame.{PutsFront, PutsText};
ghost use Rattle.capn_archive.specs.Lines as spec;
ghost use Rattle.capn_serve.specs.declared.fault.ServeFault.TheVariants as faults;

use crate::line::{put_digest, put_head, put_measured};
use crate::message_head::MessageHead;
use capn_canon::{MeasuredBare, Refusal};
use capn_serve::{NumberLine, ServeFault};
use std::alloc::{AllocError, Allocator};

/// A line with room for the longest line, which `list --digest` writes. A number has at most 20 digits.
type Line = NumberLine<352>;

/// Returns the line of `list` for an accepted message.
fn list_line(head: &MessageHead, measured: &MeasuredBare) -> Line
    ensures { result ≡ spec.list_line head.now measured.now }
{
    let mut line = Line::new();
    line.put(b"\n");
    put_measured(&mut line, measured);
    line.put(b" ");
    put_head(&mut line, head);
    line
}

/// Returns the line of `list --digest` for an accepted message.
fn digests_line(head: &MessageHead, measured: &MeasuredBare, digest: Option<[u8; 32]>) -> Line
    ensures { result ≡ spec.digests_line head.now measured.now digest }
{
    let mut line = Line::new();
    line.put(b"\n");
    put_digest(&mut line, digest);
    line.put(b" sha256 ");
    put_measured(&mut line, measured);
    line.put(b" ");
    put_head(&mut line, head);
    line
}

/// Returns the beginning of a message's line, which shows the position and the size of the message.
fn head_text(head: &MessageHead) -> Line
    ensures { result ≡ spec.head_text head.now }
{
    let mut line = Line::new();
    put_head(&mut line, head);
    line
}

/// Returns the end of a skipped message's line, which shows why the message is refused.
fn refusal_end<A: Allocator>(alloc: A, refusal: &Refusal) -> Result<String<A>, ServeFault>
    ensures found { IfOk result (λ text. string_bytes text ≡ codes " refused " ++ (refusal_text refusal.now
        ++ codes "\n")) }
    ensures only { IfErr result (λ e. e ≡ faults.Memory) }
{
    Ok(format!(in alloc; " refused {refusal}\n")?)
}

/// Appends `bytes` to `text`, or nothing if an allocation is refused.
fn put_bytes<A: Allocator>(text: &mut Vec<u8, A>, bytes: &[u8]) -> Result<(), ServeFault>
    ensures { PutsText bytes.now text.old.items text.new.items result }
{
    Ok(text.extend_from_slice(bytes)?)
}

/// Appends `front` and `back` to `text`. If an allocation is refused, some of these bytes may have been appended.
fn push_both<A: Allocator>(
    text: &mut Vec<u8, A>,
    front: &[u8],
    back: &[u8],
) -> Result<(), AllocError>
    ensures { PutsFront (front.now ++ back.now) text.old.items text.new.items result }
{
    text.extend_from_slice(front)?;
    text.extend_from_slice(back)
}

/// Appends `front` and `back` to `text`, or nothing if an allocation is refused.
fn put_both<A: Allocator>(
    text: &mut Vec<u8, A>,
    front: &[u8],
    back: &[u8],
) -> Result<(), ServeFault>
    ensures { PutsText (front.now ++ back.now) text.old.items text.new.items result }
{
    let kept = text.len();
    if push_both(text, front, back).is_err() {
        text.truncate(kept);
        return Err(ServeFault::Memory);
    }
    Ok(())
}

/// Appends the line of an accepted message to `text`, or nothing if an allocation is refused.
pub(crate) fn put_list_line<A: Allocator>(
    head: &MessageHead,
    measured: &MeasuredBare,
    text: &mut Vec<u8, A>,
) -> Result<(), ServeFault>
    ensures { PutsText (spec.list_line head.now measured.now) text.old.items text.new.items result }
{
    put_bytes(text, list_line(head, measured).as_bytes())
}

/// Appends the line of an accepted message with its digest to `text`, or nothing if an allocation is refused.
pub(crate) fn put_digests_line<A: Allocator>(
    head: &MessageHead,
    measured: &MeasuredBare,
    digest: Option<[u8; 32]>,
    text: &mut Vec<u8, A>,
) -> Result<(), ServeFault>
    ensures { PutsText (spec.digests_line head.now measured.now digest) text.old.items text.new.items result }
{
    put_bytes(text, digests_line(head, measured, digest).as_bytes())
}

/// Appends the line of a skipped message to `text`, or nothing if an allocation is refused.
pub(crate) fn put_refused_line<A: Allocator + Copy>(
    alloc: A,
    head: &MessageHead,
    refusal: &Refusal,
    text: &mut Vec<u8, A>,
) -> Result<(), ServeFault>
    ensures { PutsText (spec.refused_line head.now refusal.now) text.old.items text.new.items result }
{
    let end = refusal_end(alloc, refusal)?;
    put_both(text, head_text(head).as_bytes(), end.as_bytes())
}
