//! The faults that end a run over an input, and the faults of a service.

ghost use Rattle.std.specs.Prelude.{◌≡◌, ◌≢◌, ◌⊎◌};
ghost use Rattle.capn_target.specs.declared.target.Fault.TheVariants as walk_faults;
ghost use Rattle.capn_canon.specs.declared.refusal.Refusal.TheVariants as refusals;
ghost use Rattle.capn_serve.specs.declared.fault.ServeFault.TheVariants as serve_faults;
ghost use Rattle.capn_serve.specs.declared.fault.RunFault.TheVariants as run_faults;

use crate::position::Position;
use crate::refusal_line::{say_place, say_refusal};
use crate::{Ending, Line};
use capn_canon::Refusal;
use capn_walk::{Fault, Stopped};
use capn_words::{Memory, Watched};
use std::alloc::AllocError;
use std::io::{self, Write};

/// The reason why a service did not serve a message.
#[derive(Clone, Copy, Debug, PartialEq, Eq)]
pub enum ServeFault {
    /// An allocation was refused, before the first byte of the message's text or within that text.
    Memory,
    /// The writer failed while the text was written.
    Io,
    /// The message or its value is refused. No byte of the message's text was added.
    Refused(Refusal),
}

impl From<AllocError> for ServeFault {
    ghost from_gives = { λ _ fault. fault ≡ serve_faults.Memory };

    fn from(_error: AllocError) -> ServeFault {
        ServeFault::Memory
    }
}

impl From<Memory> for ServeFault {
    ghost from_gives = { λ _ fault. fault ≡ serve_faults.Memory };

    fn from(_error: Memory) -> ServeFault {
        ServeFault::Memory
    }
}

impl From<io::Error> for ServeFault {
    ghost from_gives = { λ _ fault. fault ≡ serve_faults.Io };

    fn from(_error: io::Error) -> ServeFault {
        ServeFault::Io
    }
}

/// Returns the fault of a message whose walk ended with `stopped`. The fault is `Memory` if an allocation was refused,
/// and otherwise the refusal of the message.
pub fn fault_of_stop(stopped: Stopped) -> ServeFault
    ensures { ((stopped.fault ≡ walk_faults.Memory) × (result ≡ serve_faults.Memory))
        ⊎ ((stopped.fault ≢ walk_faults.Memory) × (result ≡ serve_faults.Refused (refusals.Walk stopped))) }
{
    match stopped.fault {
        Fault::Memory => ServeFault::Memory,
        _ => ServeFault::Refused(Refusal::Walk(stopped)),
    }
}

/// The reason why a run over a stream or a bare input does not end with `Ok`.
#[derive(Clone, Copy, Debug, PartialEq, Eq)]
pub enum RunFault {
    /// An allocation was refused.
    Memory,
    /// The reader or the writer failed.
    Io,
    /// The input has, or unpacks to, more bytes than a run may serve.
    InputTooLong,
    /// The message at this position is refused, or no message can begin there.
    Refused(Position, Refusal),
}

impl From<AllocError> for RunFault {
    ghost from_gives = { λ _ fault. fault ≡ run_faults.Memory };

    fn from(_error: AllocError) -> RunFault {
        RunFault::Memory
    }
}

impl From<io::Error> for RunFault {
    ghost from_gives = { λ _ fault. fault ≡ run_faults.Io };

    fn from(_error: io::Error) -> RunFault {
        RunFault::Io
    }
}

impl Ending for RunFault {
    ghost use Rattle.capn_serve.specs.FaultText.{fault_text, status_of};

    ghost text = { fault_text };

    ghost exit = { status_of };

    fn say<E: Write>(&self, line: &mut Line, errors: &mut Watched<E>) {
        match self {
            RunFault::Memory => line.put_memory(errors),
            RunFault::Io => line.put(b"input or output failed", errors),
            RunFault::InputTooLong => line.put(b"input too long", errors),
            RunFault::Refused(at, refusal) => {
                line.put(b"message ", errors);
                say_place(at, line, errors);
                line.put(b": ", errors);
                say_refusal(refusal, line, errors);
            }
        }
    }

    fn exit_status(&self) -> u8 {
        match self {
            RunFault::Refused(_, _) => 1,
            RunFault::Memory | RunFault::Io | RunFault::InputTooLong => 3,
        }
    }
}
