//! The messages that a run has skipped.

ghost use Rattle.std.specs.Prelude.{◌≡◌};
ghost use Rattle.capn_words.specs.Watched.{inner_of, has_failed};
ghost use Rattle.capn_serve.specs.Line.{Says, way};
ghost use Rattle.capn_serve.specs.Skipped as spec;
ghost use Rattle.capn_serve.specs.Skipped.{text_of_skipped};

use crate::Line;
use crate::position::Position;
use crate::refusal_line::say_place;
use capn_words::Watched;
use std::io::Write;

/// The messages that were skipped so far.
#[derive(Clone, Copy, Debug, PartialEq, Eq)]
pub struct SkippedSoFar {
    /// The number of skipped messages.
    pub count: u64,
    /// The position of the first skipped message.
    pub first: Position,
}

/// The numbers of skipped messages and of all messages of a run, and the position of the first skipped one.
#[derive(Clone, Copy, Debug, PartialEq, Eq)]
pub struct Skipped {
    /// The number of skipped messages.
    pub refused: u64,
    /// The number of all messages, or of the messages before the fault that ended the run.
    pub messages: u64,
    /// The position of the first skipped message.
    pub first: Position,
}

/// Counts the message at `at` as skipped, in addition to the skipped messages in `so_far`. If `so_far` is `None`, the
/// message at `at` is the first.
pub fn one_more(so_far: Option<SkippedSoFar>, at: Position) -> SkippedSoFar
    ensures { result ≡ spec.one_more so_far at }
{
    match so_far {
        Some(skipped) => SkippedSoFar {
            count: skipped.count.saturating_add(1),
            first: skipped.first,
        },
        None => SkippedSoFar {
            count: 1,
            first: at,
        },
    }
}

/// Returns the `Skipped` of a run over `messages` messages. `skipped` has the number of skipped messages and the
/// position of the first one.
pub fn skipped_of(skipped: SkippedSoFar, messages: u64) -> Skipped
    ensures { result ≡ spec.skipped_of skipped messages }
{
    Skipped {
        refused: skipped.count,
        messages,
        first: skipped.first,
    }
}

/// Appends the number of skipped messages, the number of all messages, and the position of the first skipped one.
pub fn say_skipped<E: Write>(skipped: &Skipped, line: &mut Line, errors: &mut Watched<E>)
    ensures { Says (text_of_skipped skipped.now)
        (way line.old (E.contents (inner_of errors.old)) (has_failed errors.old))
        (way line.new (E.contents (inner_of errors.new)) (has_failed errors.new)) }
{
    line.put_number(skipped.refused, errors);
    line.put_named(b" of ", skipped.messages, errors);
    line.put(b" messages refused, the first is ", errors);
    say_place(&skipped.first, line, errors);
}
