//! The type `Refusal`: the reasons why bytes in a form have no canonical bytes.

use capn_pack::UnpackFault;
use capn_stream::FrameFault;
use capn_value::Memory;
use capn_walk::{Fault, Stopped};
use capn_words::BareFault;
use std::error::Error;
use std::fmt;

/// The reason why bytes in a form have no canonical bytes. The variants before `Memory` stand in the order of the
/// tests: the bytes are read, the message is walked, and its value is searched for a capability. (Our own.)
#[derive(Clone, Copy, Debug, PartialEq, Eq)]
pub enum Refusal {
    /// A fault of the form `Bare`: the bytes are not whole words, or are too many.
    Bare(BareFault),
    /// A fault of the form `Packed`: the bytes end within a group, or unpack to more words than the limit on message
    /// words and the longest table allow.
    Packed(UnpackFault),
    /// A fault of the frame: the bytes, unpacked for `Packed`, begin with no frame within the limit on message words.
    Frame(FrameFault),
    /// The offset of the first byte that follows the frame. For the form `Packed` it is an offset in the unpacked
    /// bytes.
    Trailing(u64),
    /// The stop of the walk, with its place and its fault, if the message is not accepted within the limits.
    Walk(Stopped),
    /// The index of the first capability in preorder, if the value has any: a capability has no canonical form.
    Capability(u32),
    /// A refused allocation.
    Memory,
}

impl From<BareFault> for Refusal {
    ghost use Rattle.std.specs.Prelude.{◌≡◌};
    ghost use Rattle.capn_canon.specs.declared.refusal.Refusal.TheVariants as refusals;

    ghost from_gives = { λ fault e. e ≡ refusals.Bare fault };

    fn from(fault: BareFault) -> Refusal {
        Refusal::Bare(fault)
    }
}

impl From<UnpackFault> for Refusal {
    ghost use Rattle.capn_canon.specs.RefusalOf.{IsOfPacked};

    ghost from_gives = { IsOfPacked };

    fn from(fault: UnpackFault) -> Refusal {
        match fault {
            UnpackFault::Memory => Refusal::Memory,
            _ => Refusal::Packed(fault),
        }
    }
}

impl From<FrameFault> for Refusal {
    ghost use Rattle.capn_canon.specs.RefusalOf.{IsOfFrame};

    ghost from_gives = { IsOfFrame };

    fn from(fault: FrameFault) -> Refusal {
        match fault {
            FrameFault::Memory => Refusal::Memory,
            _ => Refusal::Frame(fault),
        }
    }
}

impl From<Stopped> for Refusal {
    ghost use Rattle.capn_canon.specs.RefusalOf.{IsOfWalk};

    ghost from_gives = { IsOfWalk };

    fn from(stopped: Stopped) -> Refusal {
        match stopped.fault {
            Fault::Memory => Refusal::Memory,
            _ => Refusal::Walk(stopped),
        }
    }
}

impl From<Memory> for Refusal {
    ghost use Rattle.std.specs.Prelude.{◌≡◌};
    ghost use Rattle.capn_canon.specs.declared.refusal.Refusal.TheVariants as refusals;

    ghost from_gives = { λ _ e. e ≡ refusals.Memory };

    fn from(_: Memory) -> Refusal {
        Refusal::Memory
    }
}

impl fmt::Display for Refusal {
    ghost use Rattle.std.specs.Prelude.{Some};
    ghost use Rattle.capn_canon.specs.Display.{refusal_text};

    ghost output = { λ fault. Some (refusal_text fault) };

    fn fmt<W: fmt::Write>(&self, f: &mut fmt::Formatter<W>) -> fmt::Result {
        match self {
            Refusal::Bare(fault) => write!(f, "bare: {fault}"),
            Refusal::Packed(fault) => write!(f, "packed: {fault}"),
            Refusal::Frame(fault) => write!(f, "frame: {fault}"),
            Refusal::Trailing(offset) => write!(f, "trailing bytes at {offset}"),
            Refusal::Walk(stopped) => write!(f, "{stopped}"),
            Refusal::Capability(index) => write!(f, "capability {index}"),
            Refusal::Memory => write!(f, "out of memory"),
        }
    }
}

impl Error for Refusal {}
