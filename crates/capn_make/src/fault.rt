//! The faults with which a run of `make` ends, the texts of the faults, and the exit status of the run.

ghost use Rattle.std.specs.Prelude.{◌≡◌};
ghost use Rattle.capn_value.specs.Display.{misfit_name};
ghost use Rattle.capn_make.specs.FaultText.{status_of};
ghost use Rattle.capn_make.specs.declared.fault.MakeFault.TheVariants as faults;

use capn_serve::{Ending, Line};
use capn_value::Misfit;
use capn_words::{Memory, Watched};
use std::alloc::AllocError;
use std::error::Error;
use std::fmt;
use std::io::{self, Write};

/// The reason why a run ends before it has written the messages of its complete input. Lines are counted from 1, from
/// the beginning of the input.
#[derive(Clone, Copy, Debug, PartialEq, Eq)]
pub enum MakeFault {
    /// An allocation was refused.
    Memory,
    /// The reader or the writer failed.
    Io,
    /// The input has 2^64 bytes or more. For `make_texts`, the bytes of the input's plain form count too.
    InputTooLong,
    /// The number of the first wrong line: no text with its line `end` can continue with that line. If a line is
    /// missing, the number is that of the line after the last.
    NotText(u64),
    /// The value of the text that begins at this line fits into no message.
    Misfit(u64, Misfit),
    /// The value of the text that begins at this line has a capability. The second number is the index of the first
    /// capability in preorder.
    Capability(u64, u32),
    /// The form takes only one text, and a second text begins at this line.
    Another(u64),
    /// The form takes exactly one text, and the input is empty.
    NoText,
}

impl MakeFault {
    /// Returns the exit status of a run that ends with this fault. The status is 1 if the input is refused. It is 3 if
    /// an allocation was refused, the reader or the writer failed, or the input is too long.
    pub fn status(self) -> u8
        ensures { result ≡ status_of self }
    {
        match self {
            MakeFault::Memory | MakeFault::Io | MakeFault::InputTooLong => 3,
            MakeFault::NotText(_)
            | MakeFault::Misfit(_, _)
            | MakeFault::Capability(_, _)
            | MakeFault::Another(_)
            | MakeFault::NoText => 1,
        }
    }
}

/// Displays the text that a program prints after its name.
impl fmt::Display for MakeFault {
    ghost use Rattle.std.specs.Prelude.{Some};
    ghost use Rattle.capn_make.specs.FaultText.{fault_text};

    ghost output = { λ fault. Some (fault_text fault) };

    fn fmt<W: fmt::Write>(&self, f: &mut fmt::Formatter<W>) -> fmt::Result {
        match self {
            MakeFault::Memory => write!(f, "{Memory}"),
            MakeFault::Io => write!(f, "input or output failed"),
            MakeFault::InputTooLong => write!(f, "input too long"),
            MakeFault::NotText(line) => write!(f, "line {line}: not the text of a value"),
            MakeFault::Misfit(line, misfit) => write!(f, "line {line}: {misfit}"),
            MakeFault::Capability(line, index) => write!(f, "line {line}: capability {index}"),
            MakeFault::Another(line) => write!(f, "line {line}: another text"),
            MakeFault::NoText => write!(f, "line 1: no text"),
        }
    }
}

/// Returns the name of `misfit` as it is printed.
fn name_of(misfit: Misfit) -> &'static [u8]
    ensures { result.now ≡ misfit_name misfit }
{
    match misfit {
        Misfit::Wide => b"Wide",
        Misfit::Long => b"Long",
        Misfit::Ragged => b"Ragged",
        Misfit::Costly => b"Costly",
        Misfit::Tall => b"Tall",
        Misfit::BadRoot => b"BadRoot",
    }
}

impl Ending for MakeFault {
    ghost use Rattle.capn_make.specs.FaultText.{fault_text};

    ghost text = { fault_text };

    ghost exit = { status_of };

    fn say<E: Write>(&self, line: &mut Line, errors: &mut Watched<E>) {
        match self {
            MakeFault::Memory => line.put_memory(errors),
            MakeFault::Io => line.put(b"input or output failed", errors),
            MakeFault::InputTooLong => line.put(b"input too long", errors),
            MakeFault::NotText(at) => {
                line.put_between(b"line ", *at, b": not the text of a value", errors)
            }
            MakeFault::Misfit(at, misfit) => {
                line.put_named(b"line ", *at, errors);
                line.put(b": ", errors);
                line.put(name_of(*misfit), errors);
            }
            MakeFault::Capability(at, index) => {
                line.put_named(b"line ", *at, errors);
                line.put_named(b": capability ", *index as u64, errors);
            }
            MakeFault::Another(at) => line.put_between(b"line ", *at, b": another text", errors),
            MakeFault::NoText => line.put(b"line 1: no text", errors),
        }
    }

    fn exit_status(&self) -> u8 {
        self.status()
    }
}

impl Error for MakeFault {}

impl From<AllocError> for MakeFault {
    ghost from_gives = { λ _ e. e ≡ faults.Memory };

    fn from(_error: AllocError) -> MakeFault {
        MakeFault::Memory
    }
}

impl From<io::Error> for MakeFault {
    ghost from_gives = { λ _ e. e ≡ faults.Io };

    fn from(_error: io::Error) -> MakeFault {
        MakeFault::Io
    }
}
