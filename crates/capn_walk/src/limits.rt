//! The limits of a walk.

ghost use Rattle.std.specs.Prelude.{◌≡◌, ◌↔◌, ◌≤◌, IsSome, IfSome};
ghost use Rattle.capn_words.specs.Message.{most_message_words};
ghost use Rattle.capn_value.specs.Cost.{most_cost, most_height};
ghost use Rattle.capn_value.specs.declared.tariff.Tariff.TheVariants as tariffs;
ghost use Rattle.capn_walk.specs.Limits.{AreLimits};

use capn_value::{MOST_COST, MOST_HEIGHT, Tariff};
use capn_words::MOST_MESSAGE_WORDS;
use std::marker::Model;

/// The usual limit on the number of words of a message, and the usual budget: 64 MiB.
const USUAL_WORDS: u32 = 8_388_608;

/// The usual limit on depth.
const USUAL_DEPTH: u32 = 64;

/// The limits of a reader, and the tariff by which visits are priced. The greatest number of words of one framed
/// message is from 1 to 2^28, and the greatest number of words that a walk pays is at most 2^28. The greatest depth of
/// objects is from 1 to 256, where the root has depth 1. (Page: security considerations; the ranges are our own.)
#[derive(Clone, Copy, Debug, PartialEq, Eq)]
pub struct Limits {
    message_words: u32,
    budget: u32,
    depth: u32,
    tariff: Tariff,
}

impl Model for Limits {
    ghost use Rattle.capn_walk.specs.Limits.{Bounds, AreLimits};

    ghost Value = { Bounds };

    ghost view = { λ l.
        record { message_words = l.message_words; budget = l.budget; depth = l.depth; tariff = l.tariff } };

    ghost invariant = { λ l. AreLimits l.message_words l.budget l.depth };

    ghost inverse = { λ b.
        record { message_words = b.message_words; budget = b.budget; depth = b.depth; tariff = b.tariff } };
}

impl Limits {
    /// Returns the limits `message_words`, `budget` and `depth`, with the strict prices. Returns `None` if and
    /// only if at least one of the three numbers is out of range.
    pub fn new(message_words: u32, budget: u32, depth: u32) -> Option<Limits>
        ensures some { IsSome result ↔ AreLimits message_words budget depth }
        ensures message_words { IfSome result (λ l. l.message_words ≡ message_words) }
        ensures budget { IfSome result (λ l. l.budget ≡ budget) }
        ensures depth { IfSome result (λ l. l.depth ≡ depth) }
        ensures tariff { IfSome result (λ l. l.tariff ≡ tariffs.Strict) }
    {
        let words_fit = 1 <= message_words && message_words <= MOST_MESSAGE_WORDS;
        let depth_fits = 1 <= depth && depth <= MOST_HEIGHT;
        if words_fit && budget <= MOST_COST && depth_fits {
            Some(Limits {
                message_words,
                budget,
                depth,
                tariff: Tariff::Strict,
            })
        } else {
            None
        }
    }

    /// Returns the usual limits: a message of 8,388,608 words, a budget of 8,388,608 words, a depth of 64, and the
    /// strict prices.
    pub fn usual() -> Limits
        ensures message_words { result.message_words ≡ 8388608 }
        ensures budget { result.budget ≡ 8388608 }
        ensures depth { result.depth ≡ 64 }
        ensures tariff { result.tariff ≡ tariffs.Strict }
    {
        Limits {
            message_words: USUAL_WORDS,
            budget: USUAL_WORDS,
            depth: USUAL_DEPTH,
            tariff: Tariff::Strict,
        }
    }

    /// Returns `self` with the prices of `tariff`.
    pub fn with_tariff(self, tariff: Tariff) -> Limits
        ensures tariff { result.tariff ≡ tariff }
        ensures message_words { result.message_words ≡ self.message_words }
        ensures budget { result.budget ≡ self.budget }
        ensures depth { result.depth ≡ self.depth }
    {
        Limits { tariff, ..self }
    }

    /// Returns the tariff by which visits are priced.
    #[inline(always)]
    pub fn tariff(self) -> Tariff
        ensures { result ≡ self.tariff }
    {
        self.tariff
    }

    /// Returns the greatest number of words of one framed message.
    pub fn message_words(self) -> u32
        ensures value { result ≡ self.message_words }
        ensures some { 1 ≤ result }
        ensures within { result ≤ most_message_words }
    {
        self.message_words
    }

    /// Returns the greatest number of words that a walk pays.
    pub fn budget(self) -> u32
        ensures value { result ≡ self.budget }
        ensures within { result ≤ most_cost }
    {
        self.budget
    }

    /// Returns the greatest depth of an object. The root has depth 1.
    pub fn depth(self) -> u32
        ensures value { result ≡ self.depth }
        ensures some { 1 ≤ result }
        ensures within { result ≤ most_height }
    {
        self.depth
    }
}
