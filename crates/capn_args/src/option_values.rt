//! The value of a single option, given or default.

ghost use Rattle.std.specs.Prelude.{◌≡◌, ◌≤◌, ◌↔◌, ◌<◌, ◌^◌, ℕ, Bool, None, Some, IfNone, IfSome, IsSome, IsTrue};
ghost use Rattle.clap.specs.Words.{first_of, found_of, rows_of};
ghost use Rattle.capn_words.specs.Message.{most_message_words};
ghost use Rattle.capn_args.specs.OptionValues.{FormIs, NumberIs, FlagIs, IsGiven, IsUsual, NumberIn, flag_in};
ghost use Rattle.capn_args.specs.OptionValues.{source_of};
ghost use Rattle.capn_serve.specs.declared.pick.StreamForm.{StreamForm};
ghost use Rattle.capn_args.specs.Meaning.{usual_with};
ghost use Rattle.capn_commands.specs.Plan as plans;

use crate::input_options::form_of;
use capn_canon::Form;
use capn_serve::StreamForm;
use capn_walk::Limits;
use clap::ArgMatches;
use clap::parser::ValueSource;

/// Tests whether the flag `id` is given. `None` means that the command has no such flag.
pub(crate) fn flag_of(matches: &ArgMatches, id: &str) -> Option<bool>
    ensures read { IfSome result (λ given. FlagIs (rows_of (found_of matches.now)) id.now given) }
    ensures served { (given : Bool) → FlagIs (rows_of (found_of matches.now)) id.now given → IsSome result }
    ensures value { result ≡ flag_in (rows_of (found_of matches.now)) id.now }
{
    let given = matches.get_one::<bool>(id)?;
    Some(given)
}

/// Returns the value of the option `id` as text, given or default, if there is one.
pub(crate) fn text_in<'a>(matches: &ArgMatches<'a>, id: &str) -> Option<&'a str>
    ensures given { IfSome result (λ text. first_of id.now (rows_of (found_of matches.now)) ≡ Some text.now) }
    ensures none { IfNone result (first_of id.now (rows_of (found_of matches.now)) ≡ None) }
{
    matches.get_str(id)
}

/// Returns the source of the value of the option `id`: the command line or the default.
fn origin_of(matches: &ArgMatches, id: &str) -> Option<ValueSource>
    ensures { result ≡ source_of (rows_of (found_of matches.now)) id.now }
{
    matches.value_source(id)
}

/// Tests whether the option `id` is not given on the command line, and has a default.
pub(crate) fn is_usual(matches: &ArgMatches, id: &str) -> bool
    ensures { IsTrue result ↔ IsUsual (rows_of (found_of matches.now)) id.now }
{
    match origin_of(matches, id) {
        Some(source) => match source {
            ValueSource::DefaultValue => true,
            ValueSource::CommandLine => false,
        },
        None => false,
    }
}

/// Tests whether the option `id` is given on the command line.
pub(crate) fn is_given(matches: &ArgMatches, id: &str) -> bool
    ensures { IsTrue result ↔ IsGiven (rows_of (found_of matches.now)) id.now }
{
    match origin_of(matches, id) {
        Some(source) => match source {
            ValueSource::CommandLine => true,
            ValueSource::DefaultValue => false,
        },
        None => false,
    }
}

/// Returns the number of the option `id`, given or default, if it is below 2^64.
fn number_of(matches: &ArgMatches, id: &str) -> Option<u64>
    ensures read { IfSome result (λ n. NumberIs (rows_of (found_of matches.now)) id.now n) }
    ensures served { (n : ℕ) → NumberIs (rows_of (found_of matches.now)) id.now n → n < 2 ^ 64 → IsSome result }
{
    let number = matches.get_one::<u64>(id)?;
    Some(number)
}

/// Returns the number of the option `id`, given or default, if it is from `least` to `most`.
pub(crate) fn number_in(matches: &ArgMatches, id: &str, least: u64, most: u64) -> Option<u64>
    ensures read { IfSome result (NumberIn (rows_of (found_of matches.now)) id.now least most) }
    ensures served { (n : ℕ) → NumberIn (rows_of (found_of matches.now)) id.now least most n → n < 2 ^ 64
        → IsSome result }
{
    let number = number_of(matches, id)?;
    if least <= number && number <= most {
        return Some(number);
    }
    None
}

/// Returns the form of a stream that `--form` names, if it names one.
pub(crate) fn stream_form_of(matches: &ArgMatches) -> Option<StreamForm>
    ensures named { IfSome result (λ form. FormIs (rows_of (found_of matches.now)) (plans.form_of form)) }
    ensures served { (form : StreamForm) → FormIs (rows_of (found_of matches.now)) (plans.form_of form)
        → IsSome result }
{
    match form_of(matches)? {
        Form::Stream => Some(StreamForm::Stream),
        Form::Packed => Some(StreamForm::Packed),
        Form::Bare => None,
    }
}

/// Returns the default limits, but with `words` as the limit on the words of a message.
pub(crate) fn limits_with(words: u32) -> Limits
    requires some { 1 ≤ words }
    requires few { words ≤ most_message_words }
    ensures { result ≡ usual_with words }
{
    let usual = Limits::usual();
    match Limits::new(words, usual.budget(), usual.depth()) {
        Some(limits) => limits,
        None => usual,
    }
}
