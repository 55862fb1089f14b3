//! The invocation that the options of `show` mean.

ghost use Rattle.std.specs.Prelude.{◌≡◌, Bool, List, codes, IfSome, IsSome, None, Some};
ghost use Rattle.clap.specs.Words.{Row, first_of, found_of, rows_of};
ghost use Rattle.capn_args.specs.OptionValues.{FlagIs, FormIs, LimitsAre};
ghost use Rattle.capn_args.specs.Meaning as meaning;
ghost use Rattle.capn_args.specs.Meaning.{MarksAre, MeansInvocation, StyleIs};
ghost use Rattle.capn_args.specs.declared.invocation.Invocation.{Invocation};

use crate::input_options::{form_of, limits_of};
use crate::invocation::{Invocation, Show};
use crate::option_values::{flag_of, text_in};
use crate::path::is_path;
use capn_canon::Form;
use capn_commands::{Command, MessageText};
use capn_show::Style;
use capn_walk::Limits;
use clap::ArgMatches;

fn style_for(text: bool, json: bool) -> Style
    ensures { result ≡ meaning.style_for text json }
{
    if text {
        if json { Style::JsonText } else { Style::Quoted }
    } else if json {
        Style::Json
    } else {
        Style::Lines
    }
}

/// Returns the style that `--text` and `--json` mean.
fn style_of(matches: &ArgMatches) -> Option<Style>
    ensures { result ≡ meaning.style_in (rows_of (found_of matches.now)) }
{
    let text = flag_of(matches, "text")?;
    let json = flag_of(matches, "json")?;
    Some(style_for(text, json))
}

/// Returns the flags `--offsets` and `--ways`, if `style` allows them.
fn marks_of(matches: &ArgMatches, style: Style) -> Option<(bool, bool)>
    ensures read { IfSome result (λ marks. MarksAre (rows_of (found_of matches.now)) style marks.0 marks.1) }
    ensures served { (offsets ways : Bool) → MarksAre (rows_of (found_of matches.now)) style offsets ways
        → IsSome result }
{
    let offsets = flag_of(matches, "offsets")?;
    let ways = flag_of(matches, "ways")?;
    if style.has_lines() || !(offsets || ways) {
        return Some((offsets, ways));
    }
    None
}

/// Tests whether `style`, `offsets` and `ways` are those of a plain `show`, which writes lines without marks or quotes.
fn is_plain(style: Style, offsets: bool, ways: bool) -> bool
    ensures { result ≡ meaning.is_plain style offsets ways }
{
    style.has_lines() && !style.is_quoted() && !(offsets || ways)
}

/// Returns the invocation of `show` without `--at`, which shows all of each message in `style`. If `one` is true, the
/// input must be exactly one message.
fn whole_invocation<'a>(
    form: Form,
    limits: Limits,
    style: Style,
    offsets: bool,
    ways: bool,
    one: bool,
) -> Invocation<'a>
    ensures { (rows : List Row) → FormIs rows form → LimitsAre rows limits → StyleIs rows style
        → MarksAre rows style offsets ways → FlagIs rows (codes "one") one → first_of (codes "at") rows ≡ None
        → MeansInvocation (Some (codes "show", rows)) result }
{
    if !is_plain(style, offsets, ways) {
        return Invocation::Show(Show {
            form,
            limits,
            style,
            offsets,
            ways,
            one,
            path: None,
        });
    }
    if one {
        Invocation::Message(Command::One(MessageText::Text, form, limits))
    } else {
        Invocation::Message(Command::Show(form, limits))
    }
}

/// Returns the invocation of `show` that the options in `matches` mean, if they mean one. With `--at` the invocation
/// shows a part of each message, and the value of `--at` must be a path. `--text` and `--json` choose another style.
/// With `--offsets` or `--ways` marks stand before the lines. JSON does not allow marks. With `--one` the input must be
/// exactly one message.
pub(crate) fn show_of<'a>(matches: &ArgMatches<'a>) -> Option<Invocation<'a>>
    ensures means { IfSome result (MeansInvocation (Some (codes "show", rows_of (found_of matches.now)))) }
    ensures served { (invocation : Invocation)
        → MeansInvocation (Some (codes "show", rows_of (found_of matches.now))) invocation
        → IsSome result }
{
    let form = form_of(matches)?;
    let limits = limits_of(matches)?;
    let style = style_of(matches)?;
    let (offsets, ways) = marks_of(matches, style)?;
    let one = flag_of(matches, "one")?;
    match text_in(matches, "at") {
        Some(path) => {
            if is_path(path) {
                let path = Some(path);
                Some(Invocation::Show(Show {
                    form,
                    limits,
                    style,
                    offsets,
                    ways,
                    one,
                    path,
                }))
            } else {
                None
            }
        }
        None => Some(whole_invocation(form, limits, style, offsets, ways, one)),
    }
}
