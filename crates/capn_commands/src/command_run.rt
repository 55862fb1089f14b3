//! The run of a command over all of its input.

ghost use Rattle.std.specs.Prelude.{◌≡◌, ◌↔◌, ◌⊎◌, ℕ, Bool, List, Option, Result, true, false, IfSome, IsErrOf};
ghost use Rattle.capn_words.specs.Watched.{inner_of, has_failed};
ghost use Rattle.capn_commands.specs.Plan as spec;
ghost use Rattle.capn_commands.specs.CommandRun.{KeepsUp, MayNeedMemory, Runs, StaysAheadAs};
ghost use Rattle.capn_commands.specs.Text.{EndsAs, EndsBy, IsText, Begins};
ghost use Rattle.capn_commands.specs.WholeInput.{Gives};
ghost use Rattle.capn_commands.specs.inner.ReadInput.{TakesAll};
ghost use Rattle.capn_commands.specs.declared.fault.ToolFault.{ToolFault};
ghost use Rattle.capn_commands.specs.declared.plan.Plan.TheVariants as plans;
ghost use Rattle.capn_commands.specs.declared.plan.Whole.{Whole};
ghost use Rattle.capn_commands.specs.declared.plan.Whole.TheVariants as wholes;

use crate::bare_message::run_one;
use crate::command::Command;
use crate::fault::ToolFault;
use crate::message_stream::{run_each, run_each_packed};
use crate::one_message::run_framed;
use crate::pending::read_words;
use crate::plan::{MessageText, Plan, Whole, plan_of};
use crate::whole_input::{make_canonical, make_text, make_verdict};
use capn_walk::Limits;
use capn_words::Watched;
use std::alloc::Allocator;
use std::io::{Read, Write};

/// Writes the output in `made`, or returns the fault in `made`.
fn write_made<W: Write, A: Allocator>(
    made: Result<Vec<u8, A>, ToolFault>,
    writer: &mut Watched<W>,
) -> Result<(), ToolFault>
    requires { has_failed writer.old ≡ false }
    ensures { (whole : Whole) (a b : Option (List ℕ)) (unread : Bool) → TakesAll (Gives whole) a b unread made
        → Runs (plans.Whole whole) a b (W.contents (inner_of writer.old)) (W.contents (inner_of writer.new)) unread
        (has_failed writer.new) result }
{
    match made {
        Ok(text) => {
            writer.write_all(&text)?;
            Ok(())
        }
        Err(fault) => Err(fault),
    }
}

/// Writes the text, the price or the digest of a bare input, which is one message.
fn run_bare_piece<R: Read, W: Write, A: Allocator + Copy>(
    alloc: A,
    piece: MessageText,
    limits: Limits,
    reader: &mut Watched<R>,
    writer: &mut Watched<W>,
) -> Result<(), ToolFault>
    requires reader_fine { has_failed reader.old ≡ false }
    requires writer_fine { has_failed writer.old ≡ false }
    ensures { Runs (plans.Whole (wholes.Bare piece limits)) (R.remaining (inner_of reader.old))
        (R.remaining (inner_of reader.new))
        (W.contents (inner_of writer.old)) (W.contents (inner_of writer.new)) (has_failed reader.new)
        (has_failed writer.new) result }
{
    match piece {
        MessageText::Price => write_made(make_verdict(alloc, reader, limits), writer),
        MessageText::Text => run_one(alloc, piece, limits, reader, writer),
        MessageText::Digest => run_one(alloc, piece, limits, reader, writer),
    }
}

/// Carries out `plan`.
fn perform<R: Read, W: Write, A: Allocator + Copy>(
    alloc: A,
    plan: Plan,
    reader: &mut Watched<R>,
    writer: &mut Watched<W>,
) -> Result<(), ToolFault>
    requires reader_fine { has_failed reader.old ≡ false }
    requires writer_fine { has_failed writer.old ≡ false }
    ensures { Runs plan (R.remaining (inner_of reader.old)) (R.remaining (inner_of reader.new))
        (W.contents (inner_of writer.old)) (W.contents (inner_of writer.new)) (has_failed reader.new)
        (has_failed writer.new) result }
{
    match plan {
        Plan::Whole(whole) => match whole {
            Whole::Packed => write_made(make_text(alloc, reader), writer),
            Whole::Unpacked(most) => write_made(read_words(alloc, reader, most), writer),
            Whole::Canonical(form, limits) => {
                write_made(make_canonical(alloc, reader, form, limits), writer)
            }
            Whole::Bare(piece, limits) => run_bare_piece(alloc, piece, limits, reader, writer),
            Whole::One(piece, form, limits) => {
                run_framed(alloc, piece, form, limits, reader, writer)
            }
        },
        Plan::Each(piece, limits) => run_each(alloc, piece, limits, reader, writer),
        Plan::Packed(piece, limits) => run_each_packed(alloc, piece, limits, reader, writer),
    }
}

/// Carries out `command`: reads the input, and writes the output of the command.
///
/// `pack`, `unpack`, `canonical`, [`Command::One`] and any command over a bare input read the complete input first, and
/// write nothing if the input is refused. `show`, `check` and `hash` read a stream, packed or not, message by message.
/// Before each read, the text of all messages that are complete by then has been written, mostly by one call. If a
/// message is refused, the text of the messages before it has been written.
///
/// `Memory` is returned if an allocation was refused, and `Io` if and only if the reader or the writer has failed.
/// `InputTooLong` is returned if the input has more than 2^32 bytes. In a stream, an earlier refusal is returned
/// instead. Any other fault is the reason why the input is refused. After `Memory` and `Io` a prefix of the output was
/// written, or nothing. At most 2^32 + 1 bytes are read, and at most 65,536 by one call. Over a stream the memory does
/// not grow with the length of the input. A run takes 128 KiB, and at most 1 MiB for unpacked words. It also takes
/// memory for the longest message, and for the texts of the messages that are complete after one read.
///
/// If the complete input is read first, the run may hold only a part of the input. Let `m` be the greatest number of
/// words of a message. Of a stream, `canonical` and [`Command::One`] hold the first 8 * (`m` + 2,049) + 1 bytes. Of a
/// packed input they hold the first `m` + 2,049 words that the input unpacks to. `unpack` holds its output. Of a bare
/// input at most 2^28 + 1 words are held. Later input is read and dropped. `pack` holds all of the input.
pub fn run<R: Read, W: Write, A: Allocator + Copy>(
    alloc: A,
    command: Command,
    reader: &mut Watched<R>,
    writer: &mut Watched<W>,
) -> Result<(), ToolFault>
    requires reader_fine { has_failed reader.old ≡ false }
    requires writer_fine { has_failed writer.old ≡ false }
    // Let the bytes of the input be known. Unless `result` is `Memory` or `Io`, the text for these bytes was written,
    // and `result` is the ending for these bytes.
    ensures exact { IfSome (R.remaining (inner_of reader.old))
        (EndsAs command (W.contents (inner_of writer.old)) (W.contents (inner_of writer.new)) result) }
    // Let the bytes of the input be known, and let `text` and `due` be their text and their ending. Unless `result` is
    // `Memory` or `Io`, `text` was written, and `result` is `due`.
    ensures only { IfSome (R.remaining (inner_of reader.old)) (λ input.
        (text : List ℕ) (due : Result (Unit {0}) ToolFault) → IsText command input text due →
        EndsBy text due (W.contents (inner_of writer.old)) (W.contents (inner_of writer.new)) result) }
    // `result` is `Io` if and only if the reader or the writer has failed.
    ensures io { IsErrOf result ToolFault.Io ↔ ((has_failed reader.new ≡ true) ⊎ (has_failed writer.new ≡ true)) }
    // For each `result`, nothing was written, or a prefix of the text for the bytes that the reader returned.
    ensures begun { Begins command (R.remaining (inner_of reader.old)) (R.remaining (inner_of reader.new))
        (W.contents (inner_of writer.old)) (W.contents (inner_of writer.new)) }
    // If the reader failed and the input is read message by message, the writer has all output for the bytes that the
    // reader returned. If the reader failed and the complete input is read first, nothing was written.
    ensures heard { has_failed reader.new ≡ true
        → KeepsUp command (R.remaining (inner_of reader.old)) (R.remaining (inner_of reader.new))
        (W.contents (inner_of writer.old)) (W.contents (inner_of writer.new)) }
    // If the input is read message by message, the texts of all messages that were complete before the last read were
    // written before that read.
    ensures ahead { StaysAheadAs command (R.remaining (inner_of reader.old)) (R.remaining (inner_of reader.new))
        (W.contents (inner_of writer.old)) (W.contents (inner_of writer.new)) }
    // `result` is `Memory` only if some bytes were read, or if the complete input is read first and its end was found.
    ensures memory { IsErrOf result ToolFault.Memory
        → MayNeedMemory command (R.remaining (inner_of reader.old)) (R.remaining (inner_of reader.new)) }
{
    perform(alloc, plan_of(command), reader, writer)
}
