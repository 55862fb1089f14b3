//! The faults of packing and of unpacking.
ghost use Rattle.std.specs.Prelude.{◌≡◌};

use std::alloc::AllocError;
use std::error::Error;
use std::fmt;

/// The reason why bytes are not packed.
#[derive(Clone, Copy, Debug, PartialEq, Eq)]
pub enum PackFault {
    /// An allocation was refused.
    Memory,
    /// The bytes are not whole words. The fault has the number of bytes, which is no multiple of eight.
    NotWhole(u64),
}

impl From<AllocError> for PackFault {
    ghost use Rattle.capn_pack.specs.declared.fault.PackFault.TheVariants.{Memory};

    ghost from_gives = { λ _ e. e ≡ Memory };

    fn from(_error: AllocError) -> Self {
        PackFault::Memory
    }
}

impl fmt::Display for PackFault {
    ghost use Rattle.std.specs.Prelude.{Some};
    ghost use Rattle.capn_pack.specs.Display.{pack_text};

    ghost output = { λ fault. Some (pack_text fault) };

    fn fmt<W: fmt::Write>(&self, f: &mut fmt::Formatter<W>) -> fmt::Result {
        match self {
            PackFault::Memory => write!(f, "out of memory"),
            PackFault::NotWhole(bytes) => write!(f, "NotWhole({bytes})"),
        }
    }
}

impl Error for PackFault {}

/// The reason why a packed text is not unpacked. Offsets are in bytes of the text.
#[derive(Clone, Copy, Debug, PartialEq, Eq)]
pub enum UnpackFault {
    /// An allocation was refused.
    Memory,
    /// The text ends within the group at `at`.
    Cut {
        /// The offset of the group's tag.
        at: u64,
    },
    /// The group at `at` has more words than are left of the maximum.
    TooLong {
        /// The offset of the group's tag.
        at: u64,
    },
    /// An earlier call on the same unpacker has returned an error.
    Failed,
}

impl From<AllocError> for UnpackFault {
    ghost use Rattle.capn_pack.specs.declared.fault.UnpackFault.TheVariants.{Memory};

    ghost from_gives = { λ _ e. e ≡ Memory };

    fn from(_error: AllocError) -> Self {
        UnpackFault::Memory
    }
}

impl fmt::Display for UnpackFault {
    ghost use Rattle.std.specs.Prelude.{Some};
    ghost use Rattle.capn_pack.specs.Display.{unpack_text};

    ghost output = { λ fault. Some (unpack_text fault) };

    fn fmt<W: fmt::Write>(&self, f: &mut fmt::Formatter<W>) -> fmt::Result {
        match self {
            UnpackFault::Memory => write!(f, "out of memory"),
            UnpackFault::Cut { at } => write!(f, "Cut at {at}"),
            UnpackFault::TooLong { at } => write!(f, "TooLong at {at}"),
            UnpackFault::Failed => write!(f, "Failed"),
        }
    }
}

impl Error for UnpackFault {}
