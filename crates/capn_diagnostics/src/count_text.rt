//! The line that says why no message is explained. Stored cases and docs/DIAGNOSTICS.md have it as `explain` prints it.

use std::fmt;

/// The reason why no message is explained, displayed in one line without its newline.
#[derive(Clone, Copy, Debug, PartialEq, Eq)]
pub enum CountText {
    /// No message is refused. The field is the number of all messages.
    NoneRefused(u64),
    /// There is no message with the given number. The field is the number of all messages.
    Fewer(u64),
}

impl fmt::Display for CountText {
    ghost use Rattle.std.specs.Prelude.{Some};
    ghost use Rattle.capn_diagnostics.specs.MessageTexts.{count_text};

    ghost output = { λ text. Some (count_text text) };

    fn fmt<W: fmt::Write>(&self, f: &mut fmt::Formatter<W>) -> fmt::Result {
        match self {
            CountText::NoneRefused(count) => write!(f, "{count} messages, none refused"),
            CountText::Fewer(count) => write!(f, "{count} messages"),
        }
    }
}
