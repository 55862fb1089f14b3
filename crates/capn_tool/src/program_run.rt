//! The complete program, from the command line to the exit status.

ghost use Rattle.std.specs.Prelude.{◌≡◌, map, false};
ghost use Rattle.capn_words.specs.Watched.{inner_of, has_failed};
ghost use Rattle.capn_tool.specs.Course.{course};
ghost use Rattle.capn_tool.specs.Program.{Ends};

use crate::annotate_run::annotate_messages;
use crate::chosen_runs::{flow_through, make_by};
use crate::cmp_end::finish_found;
use crate::message_run::carry_out;
use crate::only_run::pick_only;
use crate::part_run::show_parts;
use crate::run_end::finish;
use crate::unordered::end_unordered;
use capn_archive::{ArchiveFault, run_archive, run_filter, run_uniq};
use capn_args::{Explanation, Invocation, invocation_of};
use capn_cmp::run_cmp;
use capn_commands::{FlowFault, ToolFault, end};
use capn_explain::{run_explain, run_explain_refused};
use capn_make::MakeFault;
use capn_serve::{RunFault, SkipFault, run_pick};
use capn_words::Watched;
use std::alloc::Global;
use std::convert::AsStr;
use std::io::{Read, Write};

/// The fault that ends a run over an archive if its output failed.
const ARCHIVE_IO: ArchiveFault = ArchiveFault::Ended(SkipFault::Ended(RunFault::Io));

/// Runs the program, from the words of the command line to the exit status. The first word is the program's name.
///
/// The words choose a run, which reads from `reader`, writes to `writer`, and ends with a flush. [`capn_commands::run`]
/// carries out a command. [`show_parts`] shows messages or values in them. [`run_explain`] explains a message, and
/// [`run_explain_refused`] each message that is refused. [`annotate_messages`] says what each word of a message is.
/// [`run_archive`], [`run_uniq`] and [`run_filter`] are runs over an archive. [`run_cmp`] compares messages.
/// [`run_pick`] and [`pick_only`] pick messages. [`pack_stream`] packs, and [`unpack_stream`] unpacks.
/// [`capn_make::make`] and [`capn_make::make_texts`] make messages from texts.
///
/// If the run has no fault and the flush fails, the program ends as if the output had failed. After a fault a failed
/// flush changes nothing. The status is 0 if the run has no fault and no message differs. The status is 1 if the input
/// or a message of the input is refused, or if a message differs. The status is 3 if memory, the input or the output
/// failed, or if the input is too long. With 1 and 3 a line on `errors` says why, unless a message differs. The line is
/// `capn: ` and the text of the fault, which may have a second line if messages were skipped. A mistake on the command
/// line ends with 2, and `errors` says what is wrong, or `capn: out of memory` if there is no memory for that text.
/// Help and the version are written to `writer` and end with 0, or with 3 if memory or the output fails.
#[tactic(auto, using(crate::proofs::EndedOrders::ended, crate::proofs::EndedOrders::ended_found))]
pub fn program<'a, S: AsStr, R: Read, W: Write, E: Write>(
    alloc: Global,
    words: &'a [S],
    reader: &mut Watched<R>,
    writer: &mut Watched<W>,
    errors: &mut Watched<E>,
) -> u8
    requires reader_fine { has_failed reader.old ≡ false }
    requires writer_fine { has_failed writer.old ≡ false }
    requires errors_fine { has_failed errors.old ≡ false }
    ensures { Ends (map S.text words.now)
        (course (R.remaining (inner_of reader.old)) (R.remaining (inner_of reader.new)) (has_failed reader.new))
        (course (W.contents (inner_of writer.old)) (W.contents (inner_of writer.new)) (has_failed writer.new))
        (course (E.contents (inner_of errors.old)) (E.contents (inner_of errors.new)) (has_failed errors.new)) result }
{
    match invocation_of(alloc, words) {
        Ok(invocation) => match invocation {
            Invocation::Message(command) => end(
                alloc,
                &carry_out(alloc, command, reader, writer),
                errors,
            ),
            Invocation::Show(show) => {
                let shown = show_parts(alloc, &show, reader, writer);
                finish(shown, ToolFault::Io, writer, errors)
            }
            Invocation::Explain(explanation) => match explanation {
                Explanation::One(explain) => {
                    let explained = run_explain(alloc, explain, reader, writer);
                    finish(explained, RunFault::Io, writer, errors)
                }
                Explanation::Refused(refused) => {
                    let explained = run_explain_refused(alloc, refused, reader, writer);
                    finish(explained, SkipFault::Ended(RunFault::Io), writer, errors)
                }
            },
            Invocation::Annotate(annotate) => {
                let annotated = annotate_messages(alloc, annotate, reader, writer);
                finish(annotated, ToolFault::Io, writer, errors)
            }
            Invocation::Archive(archive) => {
                let archived = run_archive(alloc, archive, reader, writer);
                finish(archived, ARCHIVE_IO, writer, errors)
            }
            Invocation::Uniq(uniq) => {
                let sifted = run_uniq(alloc, uniq, reader, writer);
                finish(sifted, ARCHIVE_IO, writer, errors)
            }
            Invocation::Filter(filter) => {
                let let_through = run_filter(alloc, filter, reader, writer);
                finish(let_through, ARCHIVE_IO, writer, errors)
            }
            Invocation::Cmp(cmp) => {
                let found = run_cmp(alloc, cmp, reader, writer);
                finish_found(found, writer, errors)
            }
            Invocation::Pick(pick) => {
                let picked = run_pick(alloc, pick, reader, writer);
                finish(picked, RunFault::Io, writer, errors)
            }
            Invocation::Only(only) => {
                let picked = pick_only(alloc, &only, reader, writer);
                finish(picked, RunFault::Io, writer, errors)
            }
            Invocation::Flow(flow) => {
                let flowed = flow_through(alloc, flow, reader, writer);
                finish(flowed, FlowFault::Io, writer, errors)
            }
            Invocation::Make(order) => {
                let made = make_by(alloc, order, reader, writer);
                finish(made, MakeFault::Io, writer, errors)
            }
        },
        Err(usage) => end_unordered(alloc, &usage, writer, errors),
    }
}
