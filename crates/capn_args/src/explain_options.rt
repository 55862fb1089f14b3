//! The order that the options of `explain` mean, to explain one message or every refused one.

ghost use Rattle.std.specs.Prelude.{Option, ℕ, IfSome, IsSome};
ghost use Rattle.clap.specs.Words.{found_of, rows_of};
ghost use Rattle.capn_explain.specs.declared.explain.Explain.{Explain};
ghost use Rattle.capn_explain.specs.declared.explain_refused.ExplainRefused.{ExplainRefused};
ghost use Rattle.capn_args.specs.Meaning.{ExplainIs, ExplanationIs, IsNumbered, RefusedIs};
ghost use Rattle.capn_args.specs.declared.invocation.Explanation.{Explanation};

use crate::input_options::{form_of, limits_of};
use crate::invocation::Explanation;
use crate::message_number::message_number;
use crate::option_values::{flag_of, text_in};
use capn_explain::{Explain, ExplainRefused};
use clap::ArgMatches;

/// Returns the value of `--number` as a message number, or `Some(None)` if the option is not given. `None` means that
/// the value of the option is no message number.
fn numbered(matches: &ArgMatches) -> Option<Option<u64>>
    ensures read { IfSome result (IsNumbered (rows_of (found_of matches.now))) }
    ensures served { (number : Option ℕ) → IsNumbered (rows_of (found_of matches.now)) number → IsSome result }
{
    match text_in(matches, "number") {
        Some(text) => {
            let number = message_number(text)?;
            Some(Some(number))
        }
        None => Some(None),
    }
}

/// Returns the order to explain one message with the options in `matches`, or `None` if they mean no such order.
fn one_of(matches: &ArgMatches) -> Option<Explain>
    ensures are { IfSome result (ExplainIs (rows_of (found_of matches.now))) }
    ensures served { (explain : Explain) → ExplainIs (rows_of (found_of matches.now)) explain → IsSome result }
{
    let form = form_of(matches)?;
    let limits = limits_of(matches)?;
    let number = numbered(matches)?;
    Some(Explain {
        form,
        limits,
        number,
    })
}

/// Returns the order to explain every refused message with the options in `matches`, or `None` if they mean no such
/// order. `--number` must not be given.
fn refused_of(matches: &ArgMatches) -> Option<ExplainRefused>
    ensures are { IfSome result (RefusedIs (rows_of (found_of matches.now))) }
    ensures served { (refused : ExplainRefused) → RefusedIs (rows_of (found_of matches.now)) refused → IsSome result }
{
    let form = form_of(matches)?;
    let limits = limits_of(matches)?;
    match text_in(matches, "number") {
        Some(_) => None,
        None => Some(ExplainRefused { form, limits }),
    }
}

/// Returns the order of `explain` that the options in `matches` mean, if they mean one. With `--keep-going` every
/// refused message is explained.
pub(crate) fn explain_of(matches: &ArgMatches) -> Option<Explanation>
    ensures are { IfSome result (ExplanationIs (rows_of (found_of matches.now))) }
    ensures served { (explanation : Explanation) → ExplanationIs (rows_of (found_of matches.now)) explanation
        → IsSome result }
{
    if flag_of(matches, "keep-going")? {
        return Some(Explanation::Refused(refused_of(matches)?));
    }
    Some(Explanation::One(one_of(matches)?))
}
