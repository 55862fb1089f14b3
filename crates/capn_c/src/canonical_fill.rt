//! The task that writes the canonical bytes of a message into the caller's buffer, and its runs on bytes in any form
//! and on segments.

ghost use Rattle.std.specs.Prelude.{◌≡◌};
ghost use Rattle.capn_canon.specs.MemoryNeed.{MayNeedMemory};
ghost use Rattle.capn_stream.specs.Segments.{message_of};
ghost use Rattle.capn_c.specs.inner.Reported.{IsFilledHeld, IsFilledIn};

use crate::held_message::run_held;
use crate::written_message::write_message;
use capn_abi::{CapnReport, refuse};
use capn_canon::{Form, MessageTask, Refusal, run_task};
use capn_walk::Limits;
use capn_words::Space;
use std::alloc::Global;

/// The task of `fill` and `fill_held`: writes the canonical bytes of the message that was read to the caller's buffer,
/// and reports the result.
#[derive(Drop)]
struct Write<'o> {
    /// The caller's buffer.
    out: &'o mut [u8],
    /// The caller's report.
    report: &'o mut CapnReport,
}

impl MessageTask<Global> for Write<'_> {
    /// The status.
    type Answer = u32;

    ghost use Rattle.std.specs.Prelude.{◌≡◌};
    ghost use Rattle.capn_c.specs.inner.Reported.{IsFilledOf};

    ghost answers = { λ task m limits r after.
        ((after.out.ghost_name ≡ task.out.ghost_name) × (after.report.ghost_name ≡ task.report.ghost_name))
        × IsFilledOf m limits task.out.now after.out.now after.report.now r };

    #[inline(always)]
    fn run<S: Space>(
        &mut self,
        _alloc: Global,
        message: &S,
        limits: Limits,
    ) -> Result<u32, Refusal> {
        Ok(write_message(message, limits, self.out, self.report))
    }
}

/// Runs `task` on the message that `bytes` encode in `form`. Reports bytes that are no message, too. Returns the
/// status.
fn run_write(alloc: Global, task: &mut Write<'_>, form: Form, bytes: &[u8], limits: Limits) -> u32
    ensures same_buffer { task.new.out.ghost_name ≡ task.old.out.ghost_name }
    ensures same_report { task.new.report.ghost_name ≡ task.old.report.ghost_name }
    ensures filled { IsFilledIn form bytes.now limits (MayNeedMemory form bytes.now limits) task.old.out.now
        task.new.out.now result task.new.report.now }
{
    match run_task(alloc, task, form, bytes, limits) {
        Ok(status) => status,
        Err(refusal) => refuse(refusal, task.report),
    }
}

/// Writes to `out` the canonical bytes of the message that `bytes` encode in `form`. Fills in `report`, and returns the
/// status.
pub fn fill(
    alloc: Global,
    form: Form,
    bytes: &[u8],
    limits: Limits,
    out: &mut [u8],
    report: &mut CapnReport,
) -> u32
    ensures { IsFilledIn form bytes.now limits (MayNeedMemory form bytes.now limits) out.old out.new result
        report.new }
{
    let mut task = Write { out, report };
    run_write(alloc, &mut task, form, bytes, limits)
}

/// Runs `task` on the message that is held in `segments`. Reports segments that are no message, too. Returns the
/// status.
fn run_write_held(
    alloc: Global,
    task: &mut Write<'_>,
    segments: &[&[[u8; 8]]],
    limits: Limits,
) -> u32
    ensures same_buffer { task.new.out.ghost_name ≡ task.old.out.ghost_name }
    ensures same_report { task.new.report.ghost_name ≡ task.old.report.ghost_name }
    ensures filled { IsFilledHeld (message_of segments.now) limits task.old.out.now task.new.out.now result
        task.new.report.now }
{
    match run_held(alloc, task, segments, limits) {
        Ok(status) => status,
        Err(refusal) => refuse(refusal, task.report),
    }
}

/// Writes to `out` the canonical bytes of the message that is held in `segments`. Fills in `report`, and returns the
/// status. No memory is allocated.
pub fn fill_held(
    alloc: Global,
    segments: &[&[[u8; 8]]],
    limits: Limits,
    out: &mut [u8],
    report: &mut CapnReport,
) -> u32
    ensures { IsFilledHeld (message_of segments.now) limits out.old out.new result report.new }
{
    let mut task = Write { out, report };
    run_write_held(alloc, &mut task, segments, limits)
}
