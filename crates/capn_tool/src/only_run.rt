//! The run of `pick --only`.

ghost use Rattle.std.specs.Prelude.{◌≡◌, false};
ghost use Rattle.capn_words.specs.Watched.{inner_of, has_failed};
ghost use Rattle.capn_tool.specs.OnlyRun.{OnlyPicked};

use capn_args::{Only, ranges_in};
use capn_serve::{RunFault, run_only};
use capn_words::Watched;
use std::alloc::Allocator;
use std::io::{Read, Write};

/// Writes the frames of the messages whose numbers are in `only.list`, byte for byte. [`run_only`] states how the
/// stream is read and how the run ends.
///
/// The run holds the ranges, of 16 bytes each, in addition to what [`run_only`] holds. If memory for the ranges is
/// refused, nothing is read.
pub fn pick_only<R: Read, W: Write, A: Allocator + Copy>(
    alloc: A,
    only: &Only,
    reader: &mut Watched<R>,
    writer: &mut Watched<W>,
) -> Result<(), RunFault>
    requires reader_fine { has_failed reader.old ≡ false }
    requires writer_fine { has_failed writer.old ≡ false }
    ensures { OnlyPicked only.now (R.remaining (inner_of reader.old)) (R.remaining (inner_of reader.new))
        (W.contents (inner_of writer.old)) (W.contents (inner_of writer.new)) (has_failed reader.new)
        (has_failed writer.new) result }
{
    match ranges_in(alloc, only.list) {
        Ok(ranges) => run_only(alloc, only.form, only.limits, &ranges, reader, writer),
        Err(_) => Err(RunFault::Memory),
    }
}
