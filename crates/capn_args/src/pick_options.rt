//! The invocation that the options of `pick` mean.

ghost use Rattle.std.specs.Prelude.{◌≡◌, codes, IfSome, IsSome, Some};
ghost use Rattle.clap.specs.Words.{Text, found_of, rows_of};
ghost use Rattle.capn_serve.specs.declared.pick.Pick.{Pick};
ghost use Rattle.capn_args.specs.Meaning.{ListIs, MeansInvocation, OnlyIs, PickIs};
ghost use Rattle.capn_args.specs.declared.invocation.Only.{Only};
ghost use Rattle.capn_args.specs.declared.invocation.Invocation.{Invocation};

use crate::invocation::{Invocation, Only};
use crate::option_values::{is_usual, limits_with, number_in, stream_form_of, text_in};
use crate::range_list::is_range_list;
use capn_serve::Pick;
use capn_words::MOST_MESSAGE_WORDS;
use clap::ArgMatches;

/// Returns the order that the options in `matches` mean for `pick` without `--only`, if they mean one.
fn pick_of(matches: &ArgMatches) -> Option<Pick>
    ensures are { IfSome result (PickIs (rows_of (found_of matches.now))) }
    ensures served { (pick : Pick) → PickIs (rows_of (found_of matches.now)) pick → IsSome result }
{
    let form = stream_form_of(matches)?;
    let words = number_in(matches, "message-words", 1, MOST_MESSAGE_WORDS as u64)?;
    let from = number_in(matches, "from", 1, u64::MAX)?;
    let to = number_in(matches, "to", 1, u64::MAX)?;
    match text_in(matches, "only") {
        Some(_) => None,
        None => Some(Pick {
            form,
            limits: limits_with(words as u32),
            from,
            to,
        }),
    }
}

/// Returns the value of `--only`, if it is a list, and neither `--from` nor `--to` is given.
fn list_of_only<'a>(matches: &ArgMatches<'a>) -> Option<&'a str>
    ensures are { IfSome result (λ list. ListIs (rows_of (found_of matches.now)) list.now) }
    ensures served { (list : Text) → ListIs (rows_of (found_of matches.now)) list → IsSome result }
{
    let list = text_in(matches, "only")?;
    if is_range_list(list) && is_usual(matches, "from") && is_usual(matches, "to") {
        return Some(list);
    }
    None
}

/// Returns the order that the options in `matches` mean for `pick` with `--only`, if they mean one.
fn only_of<'a>(matches: &ArgMatches<'a>) -> Option<Only<'a>>
    ensures are { IfSome result (OnlyIs (rows_of (found_of matches.now))) }
    ensures served { (only : Only) → OnlyIs (rows_of (found_of matches.now)) only → IsSome result }
{
    let form = stream_form_of(matches)?;
    let words = number_in(matches, "message-words", 1, MOST_MESSAGE_WORDS as u64)?;
    let list = list_of_only(matches)?;
    Some(Only {
        form,
        limits: limits_with(words as u32),
        list,
    })
}

/// Returns the invocation of `pick` that the options in `matches` mean, if they mean one. With `--only` the invocation
/// picks the messages of a list. Otherwise it picks the messages from one number to another.
pub(crate) fn pick_invocation<'a>(matches: &ArgMatches<'a>) -> Option<Invocation<'a>>
    ensures means { IfSome result (MeansInvocation (Some (codes "pick", rows_of (found_of matches.now)))) }
    ensures served { (invocation : Invocation)
        → MeansInvocation (Some (codes "pick", rows_of (found_of matches.now))) invocation
        → IsSome result }
{
    match only_of(matches) {
        Some(only) => Some(Invocation::Only(only)),
        None => Some(Invocation::Pick(pick_of(matches)?)),
    }
}
