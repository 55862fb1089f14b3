//! The task that writes the index of a message into the caller's entries, and its run on bytes in any form.

ghost use Rattle.std.specs.Prelude.{◌≡◌, ◌<◌, ◌≤◌, ◌+◌, ◌*◌, length, false};
ghost use Rattle.capn_words.specs.Message.{most_segments};
ghost use Rattle.capn_stream.specs.FrameRefusal.{most_few};
ghost use Rattle.capn_walk.specs.Accepted.{IsValueOf};
ghost use Rattle.capn_walk.specs.Surveyed.{IsSurvey};
ghost use Rattle.capn_canon.specs.MemoryNeed.{MayNeedMemory};
ghost use Rattle.capn_canon.specs.Refusal.{IsUnaccepted};
ghost use Rattle.capn_c.specs.Entries.{starts_from, table_length};
ghost use Rattle.capn_abi.specs.StatusCodes.{answered};
ghost use Rattle.capn_c.specs.inner.Indexing.{IsIndexWritten};
ghost use Rattle.capn_c.specs.inner.Reported.{HasRoom, IsIndex, IsIndexOr, IsIndexed, IsIndexedIn};

use crate::entries::{CapnEntry, Offsets, put_starts};
use capn_abi::{CapnReport, DONE, NO_ROOM, answer_of, refuse};
use capn_canon::{Form, MessageTask, Refusal, run_task};
use capn_stream::table::head_of;
use capn_target::counted::{Asked, CountedSpace, CountedWriter, Reads};
use capn_walk::laws::indexes;
use capn_walk::{Limits, Surveyed, index_into_counted, survey_counted};
use capn_words::Space;
use std::alloc::Global;
use std::sync::ledger::Ledger;

/// Writes the index of the accepted message `space` to `out`, which is long enough for the index. The offsets count
/// from the start of a segment table of `table` bytes. `starts` has the word after the table where each segment begins.
fn write_index<S: Space, L: Ledger>(
    space: &CountedSpace<'_, S, L>,
    limits: Limits,
    table: u32,
    starts: &[u32],
    out: &mut [CapnEntry],
    reads: &mut Reads<L>,
)
    requires room { HasRoom space.now limits (length out.old) }
    requires starts { starts.now ≡ starts_from 0 space.now }
    ensures index { IsIndex table space.now limits out.old out.new }
    ensures reads { reads.new ≤ reads.old + 13 * (limits.budget + 1) + 1 }
{
    match index_into_counted(space, limits, &Offsets { table, starts }, out, reads) {
        Ok(_) => {}
        Err(_) => unreachable!(),
    }
}

/// Writes the index of the accepted message `space`, which has `segments` segments, to `out`. Returns `false` if memory
/// for the starts of the segments is refused.
fn write_many<S: Space, L: Ledger>(
    alloc: Global,
    space: &CountedSpace<'_, S, L>,
    segments: u32,
    limits: Limits,
    table: u32,
    out: &mut [CapnEntry],
    reads: &mut Reads<L>,
) -> bool
    requires segments { segments ≡ length space.now }
    requires room { HasRoom space.now limits (length out.old) }
    ensures told { IsIndexOr table space.now limits out.old out.new result }
    ensures reads { reads.new ≤ reads.old + 2 * segments + 13 * (limits.budget + 1) + 1 }
{
    let Ok(mut starts) = vec![in alloc; 0u32; segments as usize] else {
        return false;
    };
    put_starts(space, segments, &mut starts, reads);
    write_index(space, limits, table, &starts, out, reads);
    true
}

/// Writes the index of the accepted message `space`, which has `segments` segments, to `out`. Memory is allocated only
/// for more than 64 segments. Returns `false` if that memory is refused.
fn write_entries<S: Space, L: Ledger>(
    alloc: Global,
    space: &CountedSpace<'_, S, L>,
    segments: u32,
    limits: Limits,
    table: u32,
    out: &mut [CapnEntry],
    reads: &mut Reads<L>,
) -> bool
    requires segments { segments ≡ length space.now }
    requires room { HasRoom space.now limits (length out.old) }
    ensures told { IsIndexOr table space.now limits out.old out.new result }
    ensures asked { result ≡ false → most_few < length space.now }
    ensures reads { reads.new ≤ reads.old + 2 * segments + 13 * (limits.budget + 1) + 1 }
{
    if segments > 64 {
        return write_many(alloc, space, segments, limits, table, out, reads);
    }
    let mut starts = [0; 64];
    put_starts(space, segments, &mut starts, reads);
    write_index(
        space,
        limits,
        table,
        &starts[..segments as usize],
        out,
        reads,
    );
    true
}

/// Returns the number of bytes before the words of the message `space` in `form`: those of the segment table in a
/// stream. At most one read is counted.
fn table_of<S: Space, L: Ledger>(
    form: Form,
    space: &CountedSpace<'_, S, L>,
    reads: &mut Reads<L>,
) -> u32
    ensures table { result ≡ table_length form space.now }
    ensures reads { reads.new ≤ reads.old + 1 }
{
    space.bounds();
    match form {
        Form::Stream => head_of(space.segments(reads) as usize) as u32,
        Form::Packed | Form::Bare => 0,
    }
}

/// Surveys the message `space`, and writes its index to `out` if `out` is long enough. Returns the survey. Reads and
/// turns of loops are counted in `reads`. Memory is allocated only for more than 64 segments.
#[inline(always)]
fn index_counted<S: Space, L: Ledger>(
    alloc: Global,
    space: &CountedSpace<'_, S, L>,
    limits: Limits,
    form: Form,
    out: &mut [CapnEntry],
    reads: &mut Reads<L>,
) -> Result<Surveyed, Refusal>
    ensures told { IsIndexWritten form space.now limits out.old out.new result }
    ensures reads { reads.new ≤ reads.old + 27 * (limits.budget + 1) + 2 * most_segments + 4 }
{
    space.bounds();
    // The number of entries of an index is the number of visits, by this law.
    indexes();
    match survey_counted(space, limits, reads) {
        Ok(surveyed) => {
            if surveyed.visits as usize > out.len() {
                return Ok(surveyed);
            }
            let table = table_of(form, space, reads);
            let segments = space.segments(reads);
            if write_entries(alloc, space, segments, limits, table, out, reads) {
                return Ok(surveyed);
            }
            Err(Refusal::Memory)
        }
        Err(stopped) => Err(Refusal::Walk(stopped)),
    }
}

/// The task of `index_message`: writes the index of the message that it is run on to a buffer of entries.
#[derive(Drop)]
struct IndexTask {
    alloc: Global,
    limits: Limits,
    form: Form,
}

impl CountedWriter for IndexTask {
    type Told = Result<Surveyed, Refusal>;

    type Item = CapnEntry;

    ghost use Rattle.std.specs.Prelude.{◌+◌, ◌*◌};
    ghost use Rattle.capn_words.specs.Message.{most_segments};
    ghost use Rattle.capn_c.specs.inner.Indexing.{IsIndexWritten};

    ghost tells = { λ t m old new r. IsIndexWritten t.form m t.limits old new r };

    ghost most = { λ t. 27 * (t.limits.budget + 1) + 2 * most_segments + 4 };

    #[inline(always)]
    fn run<S: Space, L: Ledger>(
        self,
        space: &CountedSpace<'_, S, L>,
        out: &mut [CapnEntry],
        reads: &mut Reads<L>,
    ) -> Result<Surveyed, Refusal> {
        index_counted(self.alloc, space, self.limits, self.form, out, reads)
    }
}

/// Returns the report of an index: 24 bytes for each entry, the words that the walk pays, and the number of entries.
fn report_of_index(surveyed: Surveyed) -> CapnReport
    ensures { result ≡ answered (24 * surveyed.visits) surveyed.paid surveyed.visits }
{
    answer_of(24 * surveyed.visits as u64, surveyed.paid, surveyed.visits)
}

/// Writes the index of the message `space`, which is read in `form`, to `out`, and reports the result. Memory is
/// allocated only for more than 64 segments.
///
/// `space` is any [`Asked`], so the clause `work` bounds how often the message is read.
#[inline(always)]
fn index_message<M: Asked>(
    alloc: Global,
    space: M,
    limits: Limits,
    form: Form,
    out: &mut [CapnEntry],
    report: &mut CapnReport,
) -> u32
    // `space` must allow 27 * (budget + 1) reads and turns of loops for the two walks, two for each segment and four
    // more, and one more to start the count.
    requires work { M.allows space (27 * (limits.budget + 1) + 2 * most_segments + 4 + 1) }
    ensures { IsIndexed (IsSurvey (M.message space) limits)
        (IsIndex (table_length form (M.message space)) (M.message space) limits out.old out.new)
        (IsValueOf (M.message space) limits) (IsUnaccepted (M.message space) limits)
        (most_few < length (M.message space)) limits.budget out.old out.new result report.new }
{
    let room = out.len();
    match space.ask_into(
        IndexTask {
            alloc,
            limits,
            form,
        },
        out,
    ) {
        Ok(surveyed) => {
            *report = report_of_index(surveyed);
            if surveyed.visits as usize > room {
                return NO_ROOM;
            }
            DONE
        }
        Err(refusal) => refuse(refusal, report),
    }
}

/// The task of `fill_index`: writes the index of the message that was read to the caller's entries, and reports the
/// result.
#[derive(Drop)]
struct WriteIndex<'o> {
    /// The form in which the message is read.
    form: Form,
    /// The caller's entries.
    out: &'o mut [CapnEntry],
    /// The caller's report.
    report: &'o mut CapnReport,
}

impl MessageTask<Global> for WriteIndex<'_> {
    /// The status.
    type Answer = u32;

    ghost use Rattle.std.specs.Prelude.{◌≡◌};
    ghost use Rattle.capn_c.specs.inner.Reported.{IsIndexedOf};

    ghost answers = { λ task m limits r after.
        ((after.out.ghost_name ≡ task.out.ghost_name) × (after.report.ghost_name ≡ task.report.ghost_name))
        × IsIndexedOf task.form m limits task.out.now after.out.now after.report.now r };

    #[inline(always)]
    fn run<S: Space>(
        &mut self,
        alloc: Global,
        message: &S,
        limits: Limits,
    ) -> Result<u32, Refusal> {
        Ok(index_message(alloc, message, limits, self.form, self.out, self.report))
    }
}

/// Runs `task` on the message that `bytes` encode in the form of `task`. Reports bytes that are no message, too.
/// Returns the status.
fn run_index(alloc: Global, task: &mut WriteIndex<'_>, bytes: &[u8], limits: Limits) -> u32
    ensures same_entries { task.new.out.ghost_name ≡ task.old.out.ghost_name }
    ensures same_report { task.new.report.ghost_name ≡ task.old.report.ghost_name }
    ensures indexed { IsIndexedIn task.old.form bytes.now limits (MayNeedMemory task.old.form bytes.now limits)
        task.old.out.now task.new.out.now result task.new.report.now }
{
    let form = task.form;
    match run_task(alloc, task, form, bytes, limits) {
        Ok(status) => status,
        Err(refusal) => refuse(refusal, task.report),
    }
}

/// Writes the index of the message that `bytes` encode in `form` to `out`, within `limits`. Fills in `report`, and
/// returns the status. Memory is allocated on `alloc` only for a packed text, and for a frame of more than 64 segments.
pub fn fill_index(
    alloc: Global,
    form: Form,
    bytes: &[u8],
    limits: Limits,
    out: &mut [CapnEntry],
    report: &mut CapnReport,
) -> u32
    ensures { IsIndexedIn form bytes.now limits (MayNeedMemory form bytes.now limits) out.old out.new result
        report.new }
{
    let mut task = WriteIndex { form, out, report };
    run_index(alloc, &mut task, bytes, limits)
}
