//! The tally of the messages served so far.

ghost use Rattle.std.specs.Prelude.{◌≡◌};
ghost use Rattle.capn_archive.specs.Tally as spec;

use capn_serve::{Position, SkippedSoFar, one_more};

/// The greatest amount of a message so far, and the first message with that amount.
#[derive(Clone, Copy, Debug, PartialEq, Eq)]
pub struct Greatest {
    /// The amount.
    pub amount: u32,
    /// The number of messages before the first one with that amount.
    pub index: u64,
}

/// The greatest amounts of the messages that the task `Limits` counts, and the count of the skipped messages.
#[derive(Clone, Copy, Debug, PartialEq, Eq)]
pub struct Tally {
    /// The count of the skipped messages, if there are any.
    pub skipped: Option<SkippedSoFar>,
    /// The greatest number of words, if any message was counted.
    pub words: Option<Greatest>,
    /// The greatest price, if any message was counted.
    pub price: Option<Greatest>,
    /// The greatest depth, if any message was counted.
    pub depth: Option<Greatest>,
}

/// Returns the greater of `so_far` and the `amount` of the message `index`. If both amounts are equal, returns
/// `so_far`.
fn greater(so_far: Option<Greatest>, amount: u32, index: u64) -> Greatest
    ensures { result ≡ spec.greater so_far amount index }
{
    match so_far {
        Some(greatest) => {
            if greatest.amount < amount {
                Greatest { amount, index }
            } else {
                greatest
            }
        }
        None => Greatest { amount, index },
    }
}

/// Returns the tally of a run that has not served a message.
pub(crate) fn no_tally() -> Tally
    ensures { result ≡ spec.no_tally }
{
    Tally {
        skipped: None,
        words: None,
        price: None,
        depth: None,
    }
}

/// Counts the message `index`, which has `words` words, costs `price`, and needs `depth`.
pub(crate) fn count(tally: &mut Tally, index: u64, words: u32, price: u32, depth: u32)
    ensures { tally.new ≡ spec.counted tally.old index words price depth }
{
    tally.words = Some(greater(tally.words, words, index));
    tally.price = Some(greater(tally.price, price, index));
    tally.depth = Some(greater(tally.depth, depth, index));
}

pub(crate) fn skip(tally: &mut Tally, at: Position)
    ensures { tally.new ≡ spec.skipped tally.old at }
{
    tally.skipped = Some(one_more(tally.skipped, at));
}
