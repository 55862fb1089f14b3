//! The end of the program if its command line starts no run: help, version, or a mistake.

ghost use Rattle.std.specs.Prelude.{◌≡◌, false, IfOk, IfErr, string_bytes};
ghost use Rattle.clap.specs.Words.{kind_of};
ghost use Rattle.capn_words.specs.Watched.{inner_of, has_failed};
ghost use Rattle.capn_serve.specs.Line.{WritesLine};
ghost use Rattle.capn_commands.specs.FaultText.{fault_line};
ghost use Rattle.capn_commands.specs.declared.fault.ToolFault.TheVariants as faults;
ghost use Rattle.capn_tool.specs.Course.{course};
ghost use Rattle.capn_tool.specs.Unordered.{EndsUnordered, ShowsHelp, ShowsVersion, WritesText};
ghost use Rattle.capn_args.specs.Usage.{WishesHelp, error_of};

use crate::output::flush_after;
use capn_args::{Usage, VERSION_LINE};
use capn_commands::{ToolFault, end};
use capn_words::Watched;
use std::alloc::{AllocError, Global};
use std::io::Write;

/// The exit status of a mistake on the command line.
const MISTAKE: u8 = 2;

/// Writes the help text to the output, and flushes the output.
fn show_help<W: Write>(
    alloc: Global,
    usage: &Usage,
    writer: &mut Watched<W>,
) -> Result<(), ToolFault>
    requires help { WishesHelp usage.now }
    requires fine { has_failed writer.old ≡ false }
    ensures { ShowsHelp
        (course (W.contents (inner_of writer.old)) (W.contents (inner_of writer.new)) (has_failed writer.new)) result }
{
    let text = usage.text(alloc)?;
    writer.write_all(text.as_bytes())?;
    flush_after(Ok(()), ToolFault::Io, writer)
}

/// Writes the version line to the output, and flushes the output.
fn show_version<W: Write>(writer: &mut Watched<W>) -> Result<(), ToolFault>
    requires { has_failed writer.old ≡ false }
    ensures { ShowsVersion
        (course (W.contents (inner_of writer.old)) (W.contents (inner_of writer.new)) (has_failed writer.new)) result }
{
    writer.write_all(VERSION_LINE)?;
    flush_after(Ok(()), ToolFault::Io, writer)
}

/// Writes `said`, the text about a mistake, or the error line of `Memory` if there was no memory for the text.
fn tell_said<E: Write>(alloc: Global, said: Result<String, AllocError>, errors: &mut Watched<E>)
    requires { has_failed errors.old ≡ false }
    ensures text { IfOk said (λ text. WritesLine (string_bytes text)
        (E.contents (inner_of errors.old)) (E.contents (inner_of errors.new)) (has_failed errors.new)) }
    ensures memory { IfErr said (λ _. WritesLine (fault_line faults.Memory)
        (E.contents (inner_of errors.old)) (E.contents (inner_of errors.new)) (has_failed errors.new)) }
{
    match said {
        Ok(text) => {
            let _told = errors.write_all(text.as_bytes());
        }
        Err(_) => {
            // The exit status stays 2, the status of a mistake.
            let _status = end(alloc, &Err(ToolFault::Memory), errors);
        }
    }
}

/// Writes the text of the mistake `usage`, or the error line of `Memory` if there is no memory for the text.
fn tell_mistake<E: Write>(alloc: Global, usage: &Usage, errors: &mut Watched<E>)
    requires { has_failed errors.old ≡ false }
    ensures { WritesText
        (course (E.contents (inner_of errors.old)) (E.contents (inner_of errors.new)) (has_failed errors.new)) }
{
    tell_said(alloc, usage.text(alloc), errors);
}

/// Ends the program if its command line starts no run, and returns the exit status. Help and the version are written to
/// `writer`. The text about a mistake, or the error line of `Memory`, is written to `errors`.
pub(crate) fn end_unordered<W: Write, E: Write>(
    alloc: Global,
    usage: &Usage,
    writer: &mut Watched<W>,
    errors: &mut Watched<E>,
) -> u8
    requires writer_fine { has_failed writer.old ≡ false }
    requires errors_fine { has_failed errors.old ≡ false }
    ensures { EndsUnordered (kind_of (error_of usage.now))
        (course (W.contents (inner_of writer.old)) (W.contents (inner_of writer.new)) (has_failed writer.new))
        (course (E.contents (inner_of errors.old)) (E.contents (inner_of errors.new)) (has_failed errors.new)) result }
{
    if usage.is_memory() {
        return end(alloc, &Err(ToolFault::Memory), errors);
    }
    if usage.is_help() {
        return end(alloc, &show_help(alloc, usage, writer), errors);
    }
    if usage.is_version() {
        return end(alloc, &show_version(writer), errors);
    }
    tell_mistake(alloc, usage, errors);
    MISTAKE
}
