//! The end of a run: the flush, the error line and the exit status.

ghost use Rattle.std.specs.Prelude.{◌≡◌, false};
ghost use Rattle.capn_words.specs.Watched.{inner_of, has_failed};
ghost use Rattle.capn_tool.specs.Course.{course};
ghost use Rattle.capn_tool.specs.Flushed.{EndsRun};

use crate::output::flush_after;
use capn_serve::{Ending, end};
use capn_words::Watched;
use std::io::Write;

/// Flushes the output after a run with this `outcome`, writes an error line if the run ended with a fault, and returns
/// the exit status. If `outcome` is `Ok` and the flush fails, the run ends with `io`, the fault of an output that
/// failed. Otherwise the run ends with `outcome`.
pub(crate) fn finish<F: Ending + Copy, W: Write, E: Write>(
    outcome: Result<(), F>,
    io: F,
    writer: &mut Watched<W>,
    errors: &mut Watched<E>,
) -> u8
    requires { has_failed errors.old ≡ false }
    ensures { EndsRun F.text F.exit io outcome (has_failed writer.old)
        (course (W.contents (inner_of writer.old)) (W.contents (inner_of writer.new)) (has_failed writer.new))
        (course (E.contents (inner_of errors.old)) (E.contents (inner_of errors.new)) (has_failed errors.new)) result }
{
    let ended = flush_after(outcome, io, writer);
    end(&ended, errors)
}
