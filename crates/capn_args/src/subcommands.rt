//! The parser's commands, with their options and their help.

ghost use Rattle.std.specs.Prelude.{◌≡◌, IfOk, false};
ghost use Rattle.clap.specs.Words.{App, app_of, kind_of, new_app};
ghost use Rattle.clap.specs.declared.builder.command.Command.TheViews.{out-Command};
ghost use Rattle.clap.specs.declared.error.ErrorKind.{ErrorKind};
ghost use Rattle.capn_args.specs.CommandLine.{HasLine, line_of, program_line, top_line, with_commands};
ghost use Rattle.capn_args.specs.inner.Rows.{is_taken, texts_of, with_rows};

use crate::help::{self, Page};
use crate::option_row::OptionRow;
use crate::options::option_of;
use crate::rows::{COMMANDS, OPTIONS, page_of};
use clap::Command;
use clap::error::ErrorKind;
use std::alloc::{AllocError, Global};

/// Returns the command `name` with the help in `page`, but without options.
fn plain_command<'a>(alloc: Global, name: &'a str, page: Page) -> Command<'a>
    ensures app { app_of result ≡ new_app name.now }
    ensures local { (out-Command result).has_globals ≡ false }
{
    Command::new(alloc, name)
        .before_help(page.first)
        .about(page.about)
        .after_help(page.more)
        .override_usage(page.usage)
}

/// Returns the parser's error of this `kind`, with the message `text` and the usage of the command `name`.
pub(crate) fn mistake(
    alloc: Global,
    kind: ErrorKind,
    name: &str,
    text: &str,
) -> Result<clap::Error, AllocError>
    ensures { IfOk result (λ e. kind_of e ≡ kind) }
{
    let mut command = plain_command(alloc, name, page_of(name));
    let error = command.error(kind, text);
    // One call of `drop` is cheaper for the prover than fields that are dropped one by one.
    drop(command);
    error
}

/// Tests whether the command `name` takes the option of `row`.
fn is_taken(name: &str, row: &OptionRow) -> bool
    ensures { result ≡ is_taken name.now row.now }
{
    row.commands.iter().any(|command| *command == name)
}

/// Adds to `command` those options of `rows` that the command `name` takes.
fn with_options<'a>(
    alloc: Global,
    name: &str,
    command: Command<'a>,
    rows: &[OptionRow],
) -> Result<Command<'a>, AllocError>
    ensures { (line : App) → HasLine command.entry line
        → IfOk result (λ c. HasLine c (with_rows name.now line rows.now)) }
{
    let mut command = command;
    for row in rows {
        if is_taken(name, row) {
            command = command.arg(option_of(alloc, row))?;
        }
    }
    Ok(command)
}

/// Returns the command `name` with its options.
fn named_command<'a>(alloc: Global, name: &'a str) -> Result<Command<'a>, AllocError>
    ensures { IfOk result (λ c. HasLine c (line_of name.now)) }
{
    let command = plain_command(alloc, name, page_of(name));
    with_options(alloc, name, command, &OPTIONS)
}

/// Adds the commands `names` to `program`.
fn with_commands<'a>(
    alloc: Global,
    program: Command<'a>,
    names: &[&'a str],
) -> Result<Command<'a>, AllocError>
    ensures { IfOk result (λ c. app_of c ≡ with_commands (app_of program.entry) (texts_of names.now)) }
{
    let mut program = program;
    for name in names {
        program = program.subcommand(named_command(alloc, name)?)?;
    }
    Ok(program)
}

/// Returns the parser of the program, without its commands.
fn top_command<'a>(alloc: Global) -> Command<'a>
    ensures { app_of result ≡ top_line }
{
    plain_command(alloc, "capn", help::PROGRAM)
        .subcommand_required(true)
        .version(help::VERSION)
}

/// Returns the parser of the complete command line. An `Err` means that an allocation was refused.
pub fn program_command<'a>(alloc: Global) -> Result<Command<'a>, AllocError>
    ensures { IfOk result (λ c. app_of c ≡ program_line) }
{
    with_commands(alloc, top_command(alloc), &COMMANDS)
}
