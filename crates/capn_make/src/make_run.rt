//! The run that parses the texts of an input and writes their messages.

ghost use Rattle.std.specs.Prelude.{◌≡◌, false, IsErrOf};
ghost use Rattle.capn_words.specs.Watched.{inner_of, has_failed};
ghost use Rattle.capn_make.specs.MakeRun.{TakesBytes, Made, StopsInTime};

use crate::fault::MakeFault;
use crate::laws::refusing;
use crate::progress::Progress;
use crate::sink::run;
use capn_canon::Form;
use capn_words::Watched;
use std::alloc::Allocator;
use std::io::{Read, Write};

/// Reads texts of values from `reader`, each followed by its line `end`, and writes the canonical bytes of each value
/// to `writer`. In [`Form::Stream`] the bytes are written as a frame of one segment, and in [`Form::Packed`] as the
/// packed text of that frame. [`Form::Bare`] takes exactly one text, and writes the bytes as they are. The call is the
/// inverse of [`capn_value::show`].
///
/// A run ends with `Ok`, or with the first fault. A text is refused with the first of `NotText`, `Misfit` and
/// `Capability` that applies, and the messages of the texts before it have been written. In form `Bare` a refused input
/// has no output, and bytes after the first text are refused: with `NotText` if their first line begins no value, and
/// otherwise with `Another`. An empty input is refused with `NoText` in form `Bare`, and gives `Ok` in the other forms.
/// The fault is `Io` if and only if the reader or the writer failed. The fault is `Memory` if an allocation on `alloc`
/// was refused, which happens only after some bytes were read. The fault is `InputTooLong` for an input of 2^64 bytes
/// or more that is not refused earlier. To read so much takes centuries.
///
/// A call of the reader returns at most 65,536 bytes. Form `Bare` writes only at the end of the input. In the other
/// forms the messages of all complete texts are written before the next call, even if that call fails. The memory holds
/// the unfinished text and the messages of one chunk. Once a text is complete, the memory also holds its value and the
/// bytes written for that value. No memory is allocated for a length that a text only announces.
///
/// An input that is refused whatever follows need not be read to its end. A complete text that is refused, for example
/// for a misfit, is refused in the chunk that has its end. A text that goes too deep, or a wrong line with its newline,
/// may be found later. If the first n bytes are enough to refuse the input, at most 4 n + 65,536 bytes are read. A
/// wrong line without its newline is also refused, once no bytes can mend it. Then at most 4 (n + 2,048) + 65,536 bytes
/// are read, since only a line with the digits of a list has more than 2,048 bytes. To find such lines, an unfinished
/// text is parsed again each time that it has grown to four times its length.
pub fn make<R: Read, W: Write, A: Allocator + Copy>(
    alloc: A,
    form: Form,
    reader: &mut Watched<R>,
    writer: &mut Watched<W>,
) -> Result<(), MakeFault>
    requires reader_fine { has_failed reader.old ≡ false }
    requires writer_fine { has_failed writer.old ≡ false }
    ensures made { Made form (R.remaining (inner_of reader.old)) (R.remaining (inner_of reader.new))
        (W.contents (inner_of writer.old)) (W.contents (inner_of writer.new)) (has_failed reader.new)
        (has_failed writer.new) result }
    // If some first bytes are enough to refuse the input, `make` read little beyond them, however the run ended.
    ensures stops { StopsInTime form (R.remaining (inner_of reader.old)) (R.remaining (inner_of reader.new)) }
    // `Memory` is returned only if some bytes were read.
    ensures memory { IsErrOf result MakeFault.Memory
        → TakesBytes (R.remaining (inner_of reader.old)) (R.remaining (inner_of reader.new)) }
{
    refusing();
    let mut texts = Progress::new(alloc, form);
    run(&mut texts, reader, writer)
}
