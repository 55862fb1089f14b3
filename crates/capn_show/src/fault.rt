//! The reasons why the text of a message is not written, or is written incompletely.

ghost use Rattle.std.specs.Prelude.{◌≡◌};
ghost use Rattle.capn_show.specs.declared.fault.ShowFault.TheVariants as faults;
ghost use Rattle.capn_show.specs.ReadyPlaces.{as_fault};

use capn_walk::Stopped;
use thiserror::Error;

/// The reason why the text of a message is not written, or is written incompletely.
#[derive(Clone, Copy, Debug, PartialEq, Eq, Error)]
pub enum ShowFault {
    /// The message is not accepted within the limits. Nothing was added to the text.
    #[error("{0}")]
    Stopped(Stopped),
    /// The writer failed. The bytes to write were the stored text and then the message's text. The writer may have
    /// accepted a prefix of these bytes.
    #[error("the writer failed")]
    Io,
    /// An allocation for the stored text, or for its marks, was refused. A prefix of the message's text may have been
    /// added to the stored text.
    #[error("out of memory")]
    Memory,
}

/// The reason why a text breaks off after it was begun.
#[derive(Clone, Copy, Debug, PartialEq, Eq)]
pub enum Broken {
    /// The writer failed.
    Io,
    /// An allocation for the stored text, or for its marks, was refused.
    Memory,
}

impl From<Stopped> for ShowFault {
    ghost from_gives = { λ stopped e. e ≡ faults.Stopped stopped };

    fn from(stopped: Stopped) -> ShowFault {
        ShowFault::Stopped(stopped)
    }
}

/// Converts `broken`, the reason why a text broke off, to a `ShowFault`.
pub fn fault_of(broken: Broken) -> ShowFault
    ensures { result ≡ as_fault broken }
{
    match broken {
        Broken::Io => ShowFault::Io,
        Broken::Memory => ShowFault::Memory,
    }
}
