//! The cover of a message: for each word of its segments, how often the visits of a walk cover it, to which visit it
//! belongs, and what it is there.
//!
//! [`cover`] surveys a message within limits, and then visits each slot once more, in the order of the walk. A visit of
//! a slot that leads to a struct or a list covers the words of its landing pad and then the words of the content. The
//! root's slot is covered by the message itself, before all visits. A word belongs to the first that covers it, and is
//! an overlap if something else covers it too. [`cover_surveyed`] also returns the survey.
//!
//! A word is a slot if a visit reads it as one, and cut if canonical bytes leave it out of the object to which it
//! belongs.
//!
//! Words have numbers, counted from 0 over all segments. [`words_before`], [`number_of`] and [`place_of`] lead from
//! places to numbers and back.
#![tactic(auto)]

mod comparison;
mod cover_visits;
mod covered;
mod cut_words;
mod kept;
mod message_cover;
mod near_target;
mod object_words;
mod one_visit;
mod one_word;
mod part;
mod repeated;
mod starts;
mod word_runs;

pub use covered::{Covered, Role};
pub use message_cover::{SurveyedCover, cover, cover_surveyed};
pub use starts::{number_of, place_of, words_before};
