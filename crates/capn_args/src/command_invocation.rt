//! The call `command_of`, which returns the command over messages or bytes that a command line means.

ghost use Rattle.std.specs.Prelude.{◌≡◌, true, map, IfErr, IfOk};
ghost use Rattle.clap.specs.Words.{kind_of, subcommand_of, takes};
ghost use Rattle.capn_commands.specs.declared.command.Command.{Command};
ghost use Rattle.capn_args.specs.CommandLine.{program_line};
ghost use Rattle.capn_args.specs.Meaning.{MeansInvocation};
ghost use Rattle.capn_args.specs.Usage.{IsNoCommand, Names, error_of};
ghost use Rattle.capn_args.specs.declared.invocation.Invocation.TheVariants as invocations;

use crate::command_line::invocation_of;
use crate::invocation::Invocation;
use crate::mistakes::no_command;
use crate::usage::Usage;
use capn_commands::Command;
use std::alloc::Global;
use std::convert::AsStr;

/// Returns the command over messages or bytes that `words` mean. The first word is the program's name. If the words
/// mean no invocation, the `Usage` of [`invocation_of`] is returned. If they mean another invocation, the `Usage` has
/// the kind `InvalidSubcommand`. If an allocation is refused, the `Usage` says so.
pub fn command_of<'a, S: AsStr>(alloc: Global, words: &'a [S]) -> Result<Command, Usage>
    // If `result` is `Ok`, the words mean the returned command.
    ensures means { IfOk result (λ command.
        MeansInvocation (subcommand_of program_line (map S.text words.now)) (invocations.Message command)) }
    // If the parser takes the words and they mean a command, that command is returned, unless an allocation is refused.
    ensures only { takes program_line (map S.text words.now) ≡ true → (command : Command)
        → MeansInvocation (subcommand_of program_line (map S.text words.now)) (invocations.Message command)
        → Names command result }
    // If `result` is an `Err`, its kind is a reason why the words name no command.
    ensures reason { IfErr result (λ usage. IsNoCommand (map S.text words.now) (kind_of (error_of usage))) }
{
    match invocation_of(alloc, words)? {
        Invocation::Message(command) => Ok(command),
        _ => Err(no_command(alloc)),
    }
}
