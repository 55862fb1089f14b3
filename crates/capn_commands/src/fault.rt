//! The faults with which the run of a command ends.

ghost use Rattle.std.specs.Prelude.{◌≡◌};
ghost use Rattle.capn_commands.specs.declared.fault.ToolFault.TheVariants as fault;

use capn_canon::Refusal;
use capn_serve::RunFault;
use capn_walk::Stopped;
use std::alloc::AllocError;
use std::io;
use thiserror::Error;

/// The reason why a run stops. `{}` shows only the name of the variant. [`fault_text`](crate::fault_text) returns the
/// text for the user.
#[derive(Clone, Copy, Debug, PartialEq, Eq, Error)]
pub enum ToolFault {
    /// An allocation was refused.
    #[error("Memory")]
    Memory,
    /// The reader or the writer failed.
    #[error("Io")]
    Io,
    /// The input has more than 2^32 bytes, or as a stream of `run_show` more than 2^64 - 1.
    #[error("InputTooLong")]
    InputTooLong,
    /// The input has this number of bytes, which is no multiple of eight.
    #[error("NotWhole")]
    NotWhole(u64),
    /// The input is refused.
    #[error("Refused")]
    Refused(Refusal),
}

impl From<AllocError> for ToolFault {
    ghost from_gives = { λ _ e. e ≡ fault.Memory };

    fn from(_error: AllocError) -> ToolFault {
        ToolFault::Memory
    }
}

impl From<io::Error> for ToolFault {
    ghost from_gives = { λ _ e. e ≡ fault.Io };

    fn from(_error: io::Error) -> ToolFault {
        ToolFault::Io
    }
}

impl From<Refusal> for ToolFault {
    ghost use Rattle.capn_commands.specs.WholeInput.{IsFaultOf};

    ghost from_gives = { IsFaultOf };

    fn from(refusal: Refusal) -> ToolFault {
        match refusal {
            Refusal::Memory => ToolFault::Memory,
            _ => ToolFault::Refused(refusal),
        }
    }
}

impl From<Stopped> for ToolFault {
    ghost use Rattle.capn_commands.specs.MessageText.{IsStopOf};

    ghost from_gives = { IsStopOf };

    fn from(stopped: Stopped) -> ToolFault {
        ToolFault::Refused(Refusal::Walk(stopped))
    }
}

impl From<RunFault> for ToolFault {
    ghost use Rattle.capn_commands.specs.CommandRun.{unplaced};

    ghost from_gives = { λ fault e. e ≡ unplaced fault };

    fn from(fault: RunFault) -> ToolFault {
        match fault {
            RunFault::Memory => ToolFault::Memory,
            RunFault::Io => ToolFault::Io,
            RunFault::InputTooLong => ToolFault::InputTooLong,
            RunFault::Refused(_, refusal) => ToolFault::Refused(refusal),
        }
    }
}
