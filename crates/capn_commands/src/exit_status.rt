//! The end of a run of a command: its exit status and its error line.

ghost use Rattle.std.specs.Prelude.{◌≡◌, IfOk, string_bytes, false};
ghost use Rattle.capn_words.specs.Watched.{inner_of, has_failed};
ghost use Rattle.capn_commands.specs.ExitStatus.{status_of};
ghost use Rattle.capn_commands.specs.FaultText as spec;
ghost use Rattle.capn_commands.specs.FaultText.{ReportsEnding};

use crate::fault::ToolFault;
use capn_serve::{Ending, Line, say_refusal};
use capn_value::Memory;
use capn_words::Watched;
use std::alloc::Allocator;
use std::fmt;
use std::io::Write;

impl Ending for ToolFault {
    ghost use Rattle.capn_commands.specs.ExitStatus.{exit_of};
    ghost use Rattle.capn_commands.specs.FaultText.{fault_text};

    ghost text = { fault_text };

    ghost exit = { exit_of };

    fn say<E: Write>(&self, line: &mut Line, errors: &mut Watched<E>) {
        match self {
            ToolFault::Memory => line.put_memory(errors),
            ToolFault::Io => line.put(b"input or output failed", errors),
            ToolFault::InputTooLong => line.put(b"input too long", errors),
            ToolFault::NotWhole(length) => line.put_between(b"NotWhole(", *length, b")", errors),
            ToolFault::Refused(refusal) => say_refusal(refusal, line, errors),
        }
    }

    fn exit_status(&self) -> u8 {
        match self {
            ToolFault::NotWhole(_) | ToolFault::Refused(_) => 1,
            ToolFault::Memory | ToolFault::Io | ToolFault::InputTooLong => 3,
        }
    }
}

/// Returns the exit status of a run with this `outcome`: 0 for `Ok`, 1 for `NotWhole` and `Refused`, and 3 for
/// `Memory`, `Io` and `InputTooLong`.
pub fn status(outcome: &Result<(), ToolFault>) -> u8
    ensures { result ≡ status_of outcome.now }
{
    capn_serve::status(outcome)
}

/// A wrapper that shows the text of a fault. A `ToolFault` without this wrapper shows only the name of its variant.
#[derive(Drop)]
struct Text(ToolFault);

impl fmt::Display for Text {
    ghost use Rattle.std.specs.Prelude.{Some};

    ghost output = { λ text. Some (spec.fault_text text.0) };

    fn fmt<W: fmt::Write>(&self, f: &mut fmt::Formatter<W>) -> fmt::Result {
        match &self.0 {
            ToolFault::Memory => write!(f, "{Memory}"),
            ToolFault::Io => write!(f, "input or output failed"),
            ToolFault::InputTooLong => write!(f, "input too long"),
            ToolFault::NotWhole(length) => write!(f, "NotWhole({length})"),
            ToolFault::Refused(refusal) => write!(f, "{refusal}"),
        }
    }
}

/// Returns the text of `fault`, which the program prints after `capn: `. `Memory` is returned if there is no memory for
/// the text.
pub fn fault_text<A: Allocator>(alloc: A, fault: &ToolFault) -> Result<String<A>, Memory>
    ensures { IfOk result (λ text. string_bytes text ≡ spec.fault_text fault.now) }
{
    let text = Text(*fault);
    Ok(format!(in alloc; "{text}")?)
}

/// Returns the exit status of a run with this `outcome`. If `outcome` is an `Err`, an error line is written to
/// `errors`. If `errors` fails, a prefix of the line was written. The allocator is not used.
pub fn end<E: Write, A: Allocator + Copy>(
    _alloc: A,
    outcome: &Result<(), ToolFault>,
    errors: &mut Watched<E>,
) -> u8
    requires { has_failed errors.old ≡ false }
    ensures status { result ≡ status_of outcome.now }
    ensures says { ReportsEnding outcome.now (E.contents (inner_of errors.old)) (E.contents (inner_of errors.new))
        (has_failed errors.new) }
{
    capn_serve::end(outcome, errors)
}
