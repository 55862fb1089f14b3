//! Faults of packing or unpacking a stream.

ghost use Rattle.std.specs.Prelude.{◌≡◌};
ghost use Rattle.capn_commands.specs.FlowFaultText.{status_of};
ghost use Rattle.capn_commands.specs.declared.flow_fault.FlowFault.TheVariants as faults;

use capn_serve::{Ending, Line};
use capn_words::{Memory, Watched};
use std::alloc::AllocError;
use std::error::Error;
use std::fmt;
use std::io::{self, Write};

/// The reason why a stream is not packed or unpacked to its end.
#[derive(Clone, Copy, Debug, PartialEq, Eq)]
pub enum FlowFault {
    /// An allocation was refused.
    Memory,
    /// The reader or the writer failed.
    Io,
    /// The input has more than 2^64 - 1 bytes.
    InputTooLong,
    /// The packed input ends within the group whose tag is at this offset, in bytes.
    Cut(u64),
    /// The input has this number of bytes, which is no multiple of eight.
    NotWhole(u64),
}

impl From<AllocError> for FlowFault {
    ghost from_gives = { λ _ e. e ≡ faults.Memory };

    fn from(_error: AllocError) -> Self {
        FlowFault::Memory
    }
}

impl From<io::Error> for FlowFault {
    ghost from_gives = { λ _ e. e ≡ faults.Io };

    fn from(_error: io::Error) -> Self {
        FlowFault::Io
    }
}

impl fmt::Display for FlowFault {
    ghost use Rattle.std.specs.Prelude.{Some};
    ghost use Rattle.capn_commands.specs.FlowFaultText.{fault_text};

    ghost output = { λ fault. Some (fault_text fault) };

    fn fmt<W: fmt::Write>(&self, f: &mut fmt::Formatter<W>) -> fmt::Result {
        match self {
            FlowFault::Memory => write!(f, "{Memory}"),
            FlowFault::Io => write!(f, "input or output failed"),
            FlowFault::InputTooLong => write!(f, "input too long"),
            FlowFault::Cut(at) => write!(f, "packed: Cut at {at}"),
            FlowFault::NotWhole(bytes) => write!(f, "NotWhole({bytes})"),
        }
    }
}

impl Error for FlowFault {}

impl FlowFault {
    /// Returns the status with which a program ends: 1 for `Cut` and `NotWhole`, and 3 for any other fault.
    pub fn status(self) -> u8
        ensures { result ≡ status_of self }
    {
        match self {
            FlowFault::Cut(_) | FlowFault::NotWhole(_) => 1,
            FlowFault::Memory | FlowFault::Io | FlowFault::InputTooLong => 3,
        }
    }
}

impl Ending for FlowFault {
    ghost use Rattle.capn_commands.specs.FlowFaultText.{fault_text};

    ghost text = { fault_text };

    ghost exit = { status_of };

    fn say<E: Write>(&self, line: &mut Line, errors: &mut Watched<E>) {
        match self {
            FlowFault::Memory => line.put_memory(errors),
            FlowFault::Io => line.put(b"input or output failed", errors),
            FlowFault::InputTooLong => line.put(b"input too long", errors),
            FlowFault::Cut(at) => line.put_named(b"packed: Cut at ", *at, errors),
            FlowFault::NotWhole(bytes) => line.put_between(b"NotWhole(", *bytes, b")", errors),
        }
    }

    fn exit_status(&self) -> u8 {
        self.status()
    }
}
