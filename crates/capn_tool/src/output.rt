//! Flushes the output after a run.

ghost use Rattle.std.specs.Io.KnownBytes.{Keeps};
ghost use Rattle.capn_words.specs.Watched.{inner_of, has_failed};
ghost use Rattle.capn_tool.specs.Flushed.{EndsFlushed};

use capn_words::Watched;
use std::io::Write;

/// Flushes `writer` after a run with this `outcome`. Returns `io`, the fault of an output that failed, if `outcome` is
/// `Ok` and the flush fails. Otherwise `outcome` is returned.
pub(crate) fn flush_after<F: Copy, W: Write>(
    outcome: Result<(), F>,
    io: F,
    writer: &mut Watched<W>,
) -> Result<(), F>
    ensures kept { Keeps (W.contents (inner_of writer.old)) (W.contents (inner_of writer.new)) }
    ensures ended { EndsFlushed io outcome (has_failed writer.old) (has_failed writer.new) result }
{
    let flushed = writer.flush();
    match outcome {
        Ok(()) => match flushed {
            Ok(()) => Ok(()),
            Err(_) => Err(io),
        },
        Err(fault) => Err(fault),
    }
}
