//! The text of the command `limits`: the limits that the messages of an archive need.

ghost use Rattle.std.specs.Prelude.{◌≡◌, ◌<◌, ◌^◌, IfOk, IfErr, string_bytes};
ghost use Rattle.capn_archive.specs.Lines as spec;
ghost use Rattle.capn_serve.specs.declared.fault.RunFault.TheVariants as faults;

use crate::tally::{Greatest, Tally};
use capn_serve::{RunFault, number_of};
use capn_value::Tariff;
use std::alloc::Allocator;
use std::fmt;

/// The figures of the messages of an archive, displayed as the limits that the messages need.
#[derive(Clone, Copy, Debug, PartialEq, Eq)]
pub struct Needs {
    /// The number of messages, including those that were skipped.
    pub messages: u64,
    /// The greatest size, price and depth of a message.
    pub tally: Tally,
    /// The tariff by which the messages were priced.
    pub tariff: Tariff,
}

/// The greatest amount and the number of its message, displayed as `0 message 0` if no message was counted.
#[derive(Drop)]
struct Peak(Option<Greatest>);

impl fmt::Display for Peak {
    ghost use Rattle.std.specs.Prelude.{Some};
    ghost use Rattle.capn_archive.specs.Lines.{greatest_text};

    ghost output = { λ peak. Some (greatest_text peak.0) };

    fn fmt<W: fmt::Write>(&self, f: &mut fmt::Formatter<W>) -> fmt::Result {
        match self.0 {
            Some(greatest) => {
                let number = number_of(greatest.index);
                write!(f, "{} message {number}", greatest.amount)
            }
            None => write!(f, "0 message 0"),
        }
    }
}

/// The `--tariff` option for a tariff. The default tariff is displayed as nothing.
#[derive(Drop)]
struct TariffOption(Tariff);

impl fmt::Display for TariffOption {
    ghost use Rattle.std.specs.Prelude.{Some};
    ghost use Rattle.capn_archive.specs.Lines.{tariff_text};

    ghost output = { λ option. Some (tariff_text option.0) };

    fn fmt<W: fmt::Write>(&self, f: &mut fmt::Formatter<W>) -> fmt::Result {
        match self.0 {
            Tariff::Strict => write!(f, ""),
            Tariff::Plain => write!(f, " --tariff plain"),
        }
    }
}

/// Displays four lines: the number of messages, and the greatest number of words, the greatest price and the greatest
/// depth of a message. Each of the last three lines also shows the number of the first message with that amount.
impl fmt::Display for Needs {
    ghost use Rattle.std.specs.Prelude.{Some};
    ghost use Rattle.capn_archive.specs.Lines.{needs_text};

    ghost output = { λ needs. Some (needs_text needs) };

    fn fmt<W: fmt::Write>(&self, f: &mut fmt::Formatter<W>) -> fmt::Result {
        let words = Peak(self.tally.words);
        let price = Peak(self.tally.price);
        let depth = Peak(self.tally.depth);
        write!(
            f,
            "messages {}\nmessage-words {words}\nbudget {price}\ndepth {depth}",
            self.messages
        )
    }
}

/// Returns the amount in `greatest`, or 0 if `greatest` is `None`.
fn amount_of(greatest: Option<Greatest>) -> u64
    ensures value { result ≡ spec.amount_of greatest }
    ensures small { result < 2 ^ 32 }
{
    match greatest {
        Some(greatest) => u64::from(greatest.amount),
        None => 0,
    }
}

/// The last line of `limits`, with options for four times the greatest size and price, and for twice the greatest
/// depth. Each number stays within the range of its option.
#[derive(Drop)]
struct Advice<'a>(&'a Needs);

impl<'a> fmt::Display for Advice<'a> {
    ghost use Rattle.std.specs.Prelude.{Some};
    ghost use Rattle.capn_archive.specs.Lines.{advice_text};

    ghost output = { λ advice. Some (advice_text advice.0.now) };

    fn fmt<W: fmt::Write>(&self, f: &mut fmt::Formatter<W>) -> fmt::Result {
        let words = (4 * amount_of(self.0.tally.words)).max(1).min(1 << 28);
        let budget = (4 * amount_of(self.0.tally.price)).min(1 << 28);
        let depth = (2 * amount_of(self.0.tally.depth)).max(1).min(256);
        let tariff = TariffOption(self.0.tariff);
        write!(
            f,
            "use --message-words {words} --budget {budget} --depth {depth}{tariff}"
        )
    }
}

/// Returns the five lines that `limits` writes for `needs`.
pub(crate) fn limits_text<A: Allocator>(alloc: A, needs: &Needs) -> Result<String<A>, RunFault>
    ensures found { IfOk result (λ text. string_bytes text ≡ spec.limits_text needs.now) }
    ensures only { IfErr result (λ e. e ≡ faults.Memory) }
{
    let advice = Advice(needs);
    Ok(format!(in alloc; "{needs}\n{advice}\n")?)
}
