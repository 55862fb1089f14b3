//! The end of a run of `cmp`: the flush, the error line and the exit status.

ghost use Rattle.std.specs.Prelude.{◌≡◌, false};
ghost use Rattle.capn_words.specs.Watched.{inner_of, has_failed};
ghost use Rattle.capn_tool.specs.CmpEnd as spec;
ghost use Rattle.capn_tool.specs.CmpEnd.{EndsFound};
ghost use Rattle.capn_tool.specs.Course.{course};

use crate::output::flush_after;
use capn_cmp::{CmpFault, Comparison};
use capn_serve::{Ending, RunFault, end};
use capn_words::Watched;
use std::io::Write;

/// Returns the outcome of a run of `cmp`: `Ok` if `found` is any comparison, and otherwise the fault.
fn done_of(found: Result<Comparison, CmpFault>) -> Result<(), CmpFault>
    ensures { result ≡ spec.done_of found }
{
    match found {
        Ok(_) => Ok(()),
        Err(fault) => Err(fault),
    }
}

/// Returns the exit status of a run of `cmp`. `found` is the comparison or a fault. `ended` is the outcome after the
/// flush of the output.
fn status_after(found: Result<Comparison, CmpFault>, ended: &Result<(), CmpFault>) -> u8
    ensures { result ≡ spec.cmp_status found ended.now }
{
    match ended {
        Ok(()) => match found {
            Ok(Comparison::Same) => 0,
            Ok(Comparison::Different) => 1,
            Err(fault) => fault.exit_status(),
        },
        Err(fault) => fault.exit_status(),
    }
}

/// Flushes the output after a run of `cmp`, writes an error line if the run ended with a fault, and returns the exit
/// status. If a message differs and the flush succeeds, the status is 1, and no line is written to `errors`. If `found`
/// is a comparison but the flush fails, the run ends with the fault of an output that failed.
pub(crate) fn finish_found<W: Write, E: Write>(
    found: Result<Comparison, CmpFault>,
    writer: &mut Watched<W>,
    errors: &mut Watched<E>,
) -> u8
    requires { has_failed errors.old ≡ false }
    ensures { EndsFound found (has_failed writer.old)
        (course (W.contents (inner_of writer.old)) (W.contents (inner_of writer.new)) (has_failed writer.new))
        (course (E.contents (inner_of errors.old)) (E.contents (inner_of errors.new)) (has_failed errors.new)) result }
{
    let ended = flush_after(done_of(found), CmpFault::Run(RunFault::Io), writer);
    end(&ended, errors);
    status_after(found, &ended)
}
