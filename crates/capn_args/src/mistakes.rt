//! The message for options that together mean no invocation, chosen for each command.

ghost use Rattle.std.specs.Prelude.{◌≡◌, ◌⊎◌};
ghost use Rattle.clap.specs.Words.{kind_of};
ghost use Rattle.clap.specs.declared.error.ErrorKind.TheVariants as kinds;
ghost use Rattle.capn_args.specs.Usage.{error_of};

use crate::input_options::{form_of, limits_of};
use crate::message_number::message_number;
use crate::option_mistakes;
use crate::option_values::{is_given, stream_form_of, text_in};
use crate::path::is_path;
use crate::range_list::is_range_list;
use crate::rows::EXCLUSIONS;
use crate::subcommands::mistake;
use crate::usage::Usage;
use clap::ArgMatches;
use clap::error::ErrorKind;
use std::alloc::Global;

/// Returns the message of the first row of `EXCLUSIONS` that forbids the options given to the command `name`, if there
/// is such a row.
fn excluded(name: &str, matches: &ArgMatches) -> Option<&'static str> {
    for row in &EXCLUSIONS {
        if row.command == name
            && is_given(matches, row.option)
            && row.others.iter().any(|other| is_given(matches, other))
        {
            return Some(row.message);
        }
    }
    None
}

/// Returns the message for a value that `--at`, `--number` or `--only` does not take, if one of them has such a value.
fn wrong_value(matches: &ArgMatches) -> Option<&'static str> {
    if let Some(path) = text_in(matches, "at") {
        if !is_path(path) {
            return Some(option_mistakes::NO_PATH);
        }
    }
    if let Some(number) = text_in(matches, "number") {
        if message_number(number).is_none() {
            return Some(option_mistakes::NO_NUMBER);
        }
    }
    if let Some(list) = text_in(matches, "only") {
        if !is_range_list(list) {
            return Some(option_mistakes::NO_LIST);
        }
    }
    None
}

/// Returns the message for a form or a tariff that the command `name` doesn't take. `pick` and `cmp` don't take the
/// form `bare`. `pick` and `unpack` have no tariff.
fn wrong_input(name: &str, matches: &ArgMatches) -> Option<&'static str> {
    match name {
        "unpack" => None,
        "pick" | "cmp" if stream_form_of(matches).is_none() => {
            Some(option_mistakes::NO_FRAMED_FORM)
        }
        "pick" => None,
        _ if form_of(matches).is_none() => Some(option_mistakes::NO_SUCH_FORM),
        _ if limits_of(matches).is_none() => Some(option_mistakes::NO_SUCH_TARIFF),
        _ => None,
    }
}

/// Returns the message for options of the command `name` that mean nothing. The first message that applies is returned:
/// about `--form`, about `--tariff`, about the value of another option, about options that exclude each other, or about
/// `--keep-going` without `--framed`.
fn said_of(name: &str, matches: &ArgMatches) -> &'static str {
    if let Some(said) = wrong_input(name, matches) {
        return said;
    }
    if let Some(said) = wrong_value(matches) {
        return said;
    }
    match excluded(name, matches) {
        Some(said) => said,
        None => option_mistakes::ONLY_FRAMED,
    }
}

/// Returns the command whose options mean no invocation, and the message for them.
fn mistake_of<'a>(matches: &'a ArgMatches) -> (&'a str, &'static str) {
    match matches.subcommand() {
        Some((name, found)) => (name, said_of(name, found)),
        None => ("", option_mistakes::NO_SUCH_FORM),
    }
}

/// Returns the `Usage` for options that together mean no invocation.
pub(crate) fn meaningless(alloc: Global, matches: &ArgMatches) -> Usage
    ensures { (kind_of (error_of result) ≡ kinds.OutOfMemory) ⊎ (kind_of (error_of result) ≡ kinds.InvalidValue) }
{
    let (name, text) = mistake_of(matches);
    match mistake(alloc, ErrorKind::InvalidValue, name, text) {
        Ok(error) => error.into(),
        Err(error) => error.into(),
    }
}

/// Returns the `Usage` for words that mean an invocation, but none of the six commands over messages and bytes.
pub(crate) fn no_command(alloc: Global) -> Usage
    ensures { (kind_of (error_of result) ≡ kinds.OutOfMemory) ⊎ (kind_of (error_of result) ≡ kinds.InvalidSubcommand) }
{
    match mistake(
        alloc,
        ErrorKind::InvalidSubcommand,
        "capn",
        option_mistakes::NO_COMMAND,
    ) {
        Ok(error) => error.into(),
        Err(error) => error.into(),
    }
}
