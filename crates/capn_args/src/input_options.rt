//! The form, the limits and the tariff that the options of a command name.

ghost use Rattle.std.specs.Prelude.{ℕ, ◌<◌, ◌^◌, IfSome, IsSome};
ghost use Rattle.clap.specs.Words.{found_of, rows_of};
ghost use Rattle.capn_walk.specs.Limits.{Bounds};
ghost use Rattle.capn_args.specs.OptionValues.{FormIs, TariffIs, LimitsAre, NumberIs, UnpackedIs};

use capn_canon::Form;
use capn_stream::MOST_TABLE_WORDS;
use capn_value::Tariff;
use capn_walk::Limits;
use capn_words::MOST_MESSAGE_WORDS;
use clap::ArgMatches;

/// Returns the form that `--form` names, if it names one.
pub(crate) fn form_of(matches: &ArgMatches) -> Option<Form>
    ensures named { IfSome result (λ form. FormIs (rows_of (found_of matches.now)) form) }
    ensures served { (form : Form) → FormIs (rows_of (found_of matches.now)) form → IsSome result }
{
    match matches.get_str("form")? {
        "stream" => Some(Form::Stream),
        "packed" => Some(Form::Packed),
        "bare" => Some(Form::Bare),
        _ => None,
    }
}

/// Returns the tariff that `--tariff` names, if it names one.
fn tariff_of(matches: &ArgMatches) -> Option<Tariff>
    ensures named { IfSome result (λ tariff. TariffIs (rows_of (found_of matches.now)) tariff) }
    ensures served { (tariff : Tariff) → TariffIs (rows_of (found_of matches.now)) tariff → IsSome result }
{
    match matches.get_str("tariff")? {
        "strict" => Some(Tariff::Strict),
        "plain" => Some(Tariff::Plain),
        _ => None,
    }
}

/// Returns the number of the option `id`, given or default, if it is below 2^32.
fn number_of(matches: &ArgMatches, id: &str) -> Option<u32>
    ensures read { IfSome result (λ n. NumberIs (rows_of (found_of matches.now)) id.now n) }
    ensures served { (n : ℕ) → NumberIs (rows_of (found_of matches.now)) id.now n → n < 2 ^ 32 → IsSome result }
{
    let number = matches.get_one::<u32>(id)?;
    Some(number)
}

/// Returns the limits that `--message-words`, `--budget`, `--depth` and `--tariff` name, if the numbers are in range
/// and the tariff is known.
pub(crate) fn limits_of(matches: &ArgMatches) -> Option<Limits>
    ensures are { IfSome result (λ limits. LimitsAre (rows_of (found_of matches.now)) limits) }
    ensures served { (limits : Bounds) → LimitsAre (rows_of (found_of matches.now)) limits → IsSome result }
{
    let message_words = number_of(matches, "message-words")?;
    let budget = number_of(matches, "budget")?;
    let depth = number_of(matches, "depth")?;
    let limits = Limits::new(message_words, budget, depth)?;
    Some(limits.with_tariff(tariff_of(matches)?))
}

/// Returns the greatest number of words that `unpack` accepts, which is the value of `--message-words` plus the number
/// of words of the longest segment table.
pub(crate) fn unpacked_words_of(matches: &ArgMatches) -> Option<u32>
    ensures are { IfSome result (λ most. UnpackedIs (rows_of (found_of matches.now)) most) }
    ensures served { (most : ℕ) → UnpackedIs (rows_of (found_of matches.now)) most → IsSome result }
{
    let message_words = number_of(matches, "message-words")?;
    if message_words <= MOST_MESSAGE_WORDS {
        Some(message_words + MOST_TABLE_WORDS)
    } else {
        None
    }
}
