//! The type `FormRefusal`: the reasons why `canonical_into_form` writes no canonical bytes.

use capn_canon::{BareFault, FrameFault, IntoRefusal, Stopped, UnpackFault};
use std::error::Error;
use std::fmt;

/// The reason why canonical bytes are not written for bytes in a form. The variants stand in the order of the tests.
/// Packed bytes are tested for `NoScratch` twice: before `Frame` for the unpacked words, and after `Trailing` for the
/// ends of the segments. (Our own.)
///
/// There is no variant for memory, since nothing is allocated. Some of the faults have a variant `Memory`, for calls
/// that take an allocator. The clauses exclude that variant here.
#[derive(Clone, Copy, Debug, PartialEq, Eq)]
pub enum FormRefusal {
    /// A fault of the form `Bare`: the bytes are not whole words, or are too many.
    Bare(BareFault),
    /// A fault of the form `Packed`: the bytes end within a group, or unpack to more words than the limit on message
    /// words and the longest table allow. The fault is never `Memory`.
    Packed(UnpackFault),
    /// A fault of the frame: the bytes, unpacked for `Packed`, begin with no frame within the limit on message words.
    /// The fault is never `Memory`.
    Frame(FrameFault),
    /// The offset of the first byte that follows the frame. For the form `Packed` it is an offset in the unpacked
    /// bytes.
    Trailing(u64),
    /// The scratch is too short.
    NoScratch {
        /// The number of words that are needed. If the scratch is too short for the unpacked words, this is the number
        /// of unpacked words. If only the ends of the segments do not fit, this is the number of unpacked words plus
        /// the number of ends.
        needed: usize,
    },
    /// The stop of the walk, with its place and its fault, if the message is not accepted. The fault is never `Memory`.
    Walk(Stopped),
    /// The index of the first capability in preorder, if the value has any: a capability has no canonical form.
    Capability(u32),
    /// The buffer is too short.
    NoRoom {
        /// The length of the canonical bytes.
        needed: usize,
        /// The number of words that the walk of the message pays.
        paid: u32,
    },
}

impl From<IntoRefusal> for FormRefusal {
    ghost use Rattle.capn_scratch.specs.FormRefusal.{IsOfInto};

    ghost from_gives = { IsOfInto };

    fn from(refusal: IntoRefusal) -> FormRefusal {
        match refusal {
            IntoRefusal::Walk(stopped) => FormRefusal::Walk(stopped),
            IntoRefusal::Capability(index) => FormRefusal::Capability(index),
            IntoRefusal::NoRoom { needed, paid } => FormRefusal::NoRoom { needed, paid },
        }
    }
}

impl fmt::Display for FormRefusal {
    ghost use Rattle.std.specs.Prelude.{Some};
    ghost use Rattle.capn_scratch.specs.Display.{form_refusal_text};

    ghost output = { λ refusal. Some (form_refusal_text refusal) };

    fn fmt<W: fmt::Write>(&self, f: &mut fmt::Formatter<W>) -> fmt::Result {
        match self {
            FormRefusal::Bare(fault) => write!(f, "bare: {fault}"),
            FormRefusal::Packed(fault) => write!(f, "packed: {fault}"),
            FormRefusal::Frame(fault) => write!(f, "frame: {fault}"),
            FormRefusal::Trailing(offset) => write!(f, "trailing bytes at {offset}"),
            FormRefusal::NoScratch { needed } => write!(f, "no scratch for {needed} words"),
            FormRefusal::Walk(stopped) => write!(f, "{stopped}"),
            FormRefusal::Capability(index) => write!(f, "capability {index}"),
            FormRefusal::NoRoom { needed, paid: _ } => write!(f, "no room for {needed} bytes"),
        }
    }
}

impl Error for FormRefusal {}
