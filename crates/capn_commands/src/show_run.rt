//! The run of `show`, over messages or parts of them.

ghost use Rattle.std.specs.Prelude.{◌≡◌, false};
ghost use Rattle.capn_words.specs.Watched.{inner_of, has_failed};
ghost use Rattle.capn_commands.specs.ShowRun.{Shown};

use crate::part_texts::PartTexts;
use capn_serve::{RunFault, run_messages};
use capn_words::Watched;
use std::alloc::Allocator;
use std::io::{Read, Write};

/// Writes, for each message of an input, the text of the value at the path `texts.path` from the root. `texts` also
/// says whether the text is in a style or has marks. An empty path shows the complete message.
///
/// The line `end` follows each text, except in JSON. If nothing is at the path, the text is the line `none`, or in JSON
/// an empty line. A message is refused if and only if the walk of the complete message is refused, whatever is at the
/// path. In a stream, the texts of all complete messages have been written before each read.
///
/// The first fault ends the run. A frame, a group or a message may be refused. `InputTooLong` is returned for a bare
/// input of more than 2^32 bytes, and for any other input of more than 2^64 - 1 bytes, packed or unpacked. `Io` is
/// returned if and only if the reader or the writer failed, and `Memory` if an allocation was refused.
pub fn run_show<R: Read, W: Write, A: Allocator + Copy>(
    alloc: A,
    texts: &PartTexts,
    reader: &mut Watched<R>,
    writer: &mut Watched<W>,
) -> Result<(), RunFault>
    requires reader_fine { has_failed reader.old ≡ false }
    requires writer_fine { has_failed writer.old ≡ false }
    ensures { Shown texts.now (R.remaining (inner_of reader.old)) (R.remaining (inner_of reader.new))
        (W.contents (inner_of writer.old)) (W.contents (inner_of writer.new)) (has_failed reader.new)
        (has_failed writer.new) result }
{
    let service = PartTexts {
        path: texts.path,
        form: texts.form,
        limits: texts.limits,
        style: texts.style,
        offsets: texts.offsets,
        ways: texts.ways,
    };
    run_messages(alloc, texts.form, texts.limits, service, reader, writer)
}
