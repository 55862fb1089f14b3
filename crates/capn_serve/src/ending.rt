//! The ending of a run: the line that reports its fault, and its exit status.

ghost use Rattle.std.specs.Prelude.{◌≡◌, false};
ghost use Rattle.capn_words.specs.Watched.{inner_of, has_failed};
ghost use Rattle.capn_serve.specs.Line.{Says, way};
ghost use Rattle.capn_serve.specs.Ending.{WritesEnding, WritesFault, status_of_ending};

use crate::line::Line;
use capn_words::Watched;
use std::io::Write;

/// A fault that can end a run, with its text and its exit status.
pub trait Ending {
    ghost use Rattle.std.specs.Prelude.{ℕ, List};

    /// The text of the fault, which follows `capn: ` in the error line.
    ghost text: { Self → List ℕ };

    /// The exit status of a run that the fault ends.
    ghost exit: { Self → ℕ };

    /// Appends the text of the fault to `line`, which is written to `errors`.
    fn say<E: Write>(&self, line: &mut Line, errors: &mut Watched<E>)
        ensures { Says (text self.now) (way line.old (E.contents (inner_of errors.old)) (has_failed errors.old))
            (way line.new (E.contents (inner_of errors.new)) (has_failed errors.new)) };

    /// Returns the exit status: 1 if the input is refused, 3 if the run could not be carried out.
    fn exit_status(&self) -> u8
        ensures { result ≡ exit self.now };
}

/// Writes the error line of `fault` to `errors`.
fn tell<F: Ending, E: Write>(fault: &F, errors: &mut Watched<E>)
    requires { has_failed errors.old ≡ false }
    ensures { WritesFault (F.text fault.now) (E.contents (inner_of errors.old)) (E.contents (inner_of errors.new))
        (has_failed errors.new) }
{
    let mut line = Line::new();
    line.put(b"capn: ", errors);
    fault.say(&mut line, errors);
    line.put(b"\n", errors);
    line.send(errors);
}

/// Returns the exit status of a run with this `outcome`: 0 for `Ok`, and the status of the fault for an `Err`.
pub fn status<F: Ending>(outcome: &Result<(), F>) -> u8
    ensures { result ≡ status_of_ending F.exit outcome.now }
{
    match outcome {
        Ok(()) => 0,
        Err(fault) => fault.exit_status(),
    }
}

/// Returns the exit status of a run with this `outcome`. If `outcome` is an `Err`, an error line is written to
/// `errors`.
///
/// The line is `capn: `, the text of the fault and a newline. A line of at most 256 bytes is written by one call, if
/// `errors` takes the complete line at once. If `errors` fails, a prefix of the line was written. No memory is
/// allocated.
pub fn end<F: Ending, E: Write>(outcome: &Result<(), F>, errors: &mut Watched<E>) -> u8
    requires { has_failed errors.old ≡ false }
    ensures status { result ≡ status_of_ending F.exit outcome.now }
    ensures says { WritesEnding F.text outcome.now (E.contents (inner_of errors.old)) (E.contents (inner_of errors.new))
        (has_failed errors.new) }
{
    if let Err(fault) = outcome {
        tell(fault, errors);
    }
    status(outcome)
}
