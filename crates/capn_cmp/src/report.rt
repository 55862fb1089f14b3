//! The report of `cmp` on a message that differs, with its position and the first lines that differ.

ghost use Rattle.std.specs.Prelude.{◌≡◌, IfErr, IfOk, IfSome};
ghost use Rattle.capn_serve.specs.declared.fault.ServeFault.TheVariants as faults;
ghost use Rattle.capn_cmp.specs.CmpMessages.{IsReport, report};
ghost use Rattle.capn_cmp.specs.ShownText.{IsShownFrom};

use crate::beginning::begin_text;
use crate::lines_apart::lines_apart;
use capn_serve::{Position, ServeFault};
use capn_walk::Limits;
use std::alloc::Allocator;

/// Returns the report on the message at `at`. The first lines that differ are `line` in the text of the first message,
/// and `other` in the text of the message at `at`.
#[tactic(auto, using(crate::proofs::Reports::in_parts))]
fn report_of<A: Allocator + Copy>(
    alloc: A,
    at: Position,
    line: &[u8],
    other: &[u8],
) -> Result<Vec<u8, A>, ServeFault>
    ensures found { IfOk result (λ text. text.items ≡ report at line.now other.now) }
    ensures only { IfErr result (λ e. e ≡ faults.Memory) }
{
    let number = u128::from(at.index) + 1;
    let offset = at.offset;
    let head = format!(in alloc; "message {number} at {offset} differs from message 1\n< ")?;
    let mut text = Vec::new(alloc);
    text.extend_from_slice(head.as_bytes())?;
    text.extend_from_slice(line)?;
    text.extend_from_slice(b"\n> ")?;
    text.extend_from_slice(other)?;
    text.extend_from_slice(b"\n")?;
    Ok(text)
}

/// Returns the report on the message at `at`, or `None` if `text` or `other` ends before the end of the first lines
/// that differ. `first` and `bytes` are the canonical bytes of the first message and of the message at `at`. `text` is
/// a prefix of the text of `first`, and `other` a prefix of the text of `bytes`.
fn report_by<A: Allocator + Copy>(
    alloc: A,
    at: Position,
    first: &[u8],
    bytes: &[u8],
    text: &[u8],
    other: &[u8],
) -> Result<Option<Vec<u8, A>>, ServeFault>
    requires shown { IsShownFrom first.now text.now }
    requires also { IsShownFrom bytes.now other.now }
    ensures found { IfOk result (λ found. IfSome found (λ report. IsReport at first.now bytes.now report.items)) }
    ensures only { IfErr result (λ e. e ≡ faults.Memory) }
{
    match lines_apart(text, other) {
        Some((line, other_line)) => {
            let report = report_of(alloc, at, line, other_line)?;
            Ok(Some(report))
        }
        None => Ok(None),
    }
}

/// Returns the report on the message at `at`, whose canonical bytes `bytes` differ from `first`, those of message 1.
///
/// The call makes a prefix of each text, at first of 65,536 bytes, and doubles that size until both prefixes have the
/// first lines that differ. Both prefixes are in memory at once. If more than 65,536 bytes are needed, the size is less
/// than twice the number of bytes needed.
pub(crate) fn find_report<A: Allocator + Copy>(
    alloc: A,
    at: Position,
    limits: Limits,
    first: &[u8],
    bytes: &[u8],
) -> Result<Vec<u8, A>, ServeFault>
    ensures found { IfOk result (λ text. IsReport at first.now bytes.now text.items) }
    ensures only { IfErr result (λ e. e ≡ faults.Memory) }
{
    for power in 16..48_u32 {
        let room = 1_usize << power;
        let text = begin_text(alloc, limits, first, room)?;
        let other = begin_text(alloc, limits, bytes, room)?;
        match report_by(alloc, at, first, bytes, &text, &other)? {
            Some(report) => return Ok(report),
            None => {}
        }
    }
    Err(ServeFault::Memory)
}
