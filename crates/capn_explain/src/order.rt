//! The options of a run, which say which messages it explains.

ghost use Rattle.std.specs.Prelude.{◌≡◌};
ghost use Rattle.capn_explain.specs.Reports as spec;

use crate::explain::Explain;
use crate::explain_refused::ExplainRefused;
use capn_canon::{Form, Limits};

/// The messages of an input that a run explains.
#[derive(Clone, Copy, Debug, PartialEq, Eq)]
pub enum Wanted {
    /// The first refused message, or the only message if it is accepted.
    First,
    /// The message with this number, counted from 1.
    Number(u64),
    /// Every refused message, or the only message if it is accepted.
    Each,
}

/// The options of a run over an input.
#[derive(Clone, Copy, Debug, PartialEq, Eq)]
pub struct Order {
    /// The encoding of the input.
    pub form: Form,
    /// The limits of each message.
    pub limits: Limits,
    /// The messages to explain.
    pub wanted: Wanted,
}

fn wanted_of(number: Option<u64>) -> Wanted
    ensures { result ≡ spec.wanted_of number }
{
    match number {
        Some(number) => Wanted::Number(number),
        None => Wanted::First,
    }
}

/// Returns the options of a run that explains one message.
pub(crate) fn order_of(explain: Explain) -> Order
    ensures { result ≡ spec.order_of explain }
{
    Order {
        form: explain.form,
        limits: explain.limits,
        wanted: wanted_of(explain.number),
    }
}

/// Returns the options of a run that explains every refused message.
pub(crate) fn each_of(refused: ExplainRefused) -> Order
    ensures { result ≡ spec.each_of refused }
{
    Order {
        form: refused.form,
        limits: refused.limits,
        wanted: Wanted::Each,
    }
}
