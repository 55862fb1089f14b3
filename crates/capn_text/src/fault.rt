//! The reasons why no tree is read from a text, and the reasons why the parser stops.

ghost use Rattle.std.specs.Prelude.{◌≡◌};
ghost use Rattle.capn_text.specs.declared.fault.Stop.TheVariants.{Memory};

use capn_value::Misfit;
use std::alloc::{AllocError, AllocFailed};

/// The reason why no tree is read from a text.
#[derive(Clone, Copy, Debug, PartialEq, Eq)]
pub enum TextFault {
    /// An allocation was refused.
    Memory,
    /// The number of the first wrong line, counted from 1. The lines before the wrong line begin the text of some
    /// value, but no text of a value goes on with the wrong line. If a line is missing, the number is the number of the
    /// line after the last line. [`crate::Texts`] returns this fault only if the line is wrong whatever bytes follow.
    Line(u64),
    /// The number, counted from 1, of the first line that is wrong if no bytes follow. More bytes may complete the
    /// text.
    Cut(u64),
    /// The text is the text of a value that fits into no message. The misfit is also `Tall` if the text goes deeper
    /// than any value that fits, whatever bytes follow.
    Misfit(Misfit),
}

/// The reason why the parser stops within a text.
#[derive(Clone, Copy)]
pub enum Stop {
    /// An allocation was refused.
    Memory,
    /// A line is wrong. The field is the number of bytes from the beginning of that line to the end of the text.
    /// Functions that read less than a line may count from any place on the line.
    Left(usize),
    /// A line is unfinished. The field is the number of bytes from the beginning of that line to the end of the text.
    Cut(usize),
    /// A value is deeper than any value that fits into a message.
    Deep,
}

impl From<AllocError> for Stop {
    ghost from_gives = { λ _ e. e ≡ Memory };

    fn from(_: AllocError) -> Stop {
        Stop::Memory
    }
}

impl<T: Drop> From<AllocFailed<T>> for Stop {
    ghost from_gives = { λ _ e. e ≡ Memory };

    fn from(_: AllocFailed<T>) -> Stop {
        Stop::Memory
    }
}
