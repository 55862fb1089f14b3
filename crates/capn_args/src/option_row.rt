//! The type `OptionRow`, a row of the table of options, and the kinds of values that options take.

use capn_words::MOST_MESSAGE_WORDS;

/// The kind of value that an option takes.
#[derive(Clone, Copy)]
pub enum Taken {
    /// No value: the option is given or not.
    Flag,
    /// A text, with its name in the help. An option of this kind has no value if it is not given.
    Asked(&'static str),
    /// A text, with its name in the help and its default. The parser takes any text, because the definition of the
    /// command line cannot list the texts that are allowed. [`crate::input_options`] reads the text.
    Usual(&'static str, &'static str),
    /// A number, with its default, and the least and the greatest number allowed.
    Number(&'static str, i64, i64),
    /// A message number, with its default.
    Place(&'static str),
}

/// An option, and the commands that take it.
#[derive(Clone, Copy)]
pub struct OptionRow {
    /// The name, without the leading `--`.
    pub name: &'static str,
    /// The kind of value that the option takes.
    pub taken: Taken,
    /// The text in the help.
    pub help: &'static str,
    /// The commands that take the option.
    pub commands: &'static [&'static str],
}

/// Options of a command that exclude each other.
#[derive(Clone, Copy)]
pub struct Exclusion {
    /// The name of the command.
    pub command: &'static str,
    /// The name of an option.
    pub option: &'static str,
    /// The names of the options that `option` excludes.
    pub others: &'static [&'static str],
    /// The message if `option` is given together with one of `others`.
    pub message: &'static str,
}

/// The kind of value that `--form` takes.
pub(crate) const FORM: Taken = Taken::Usual("FORM", "stream");

/// The kind of value that `--message-words` takes.
pub(crate) const WORDS: Taken = Taken::Number("8388608", 1, MOST_MESSAGE_WORDS as i64);
