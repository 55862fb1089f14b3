//! The run that parses texts in which lists of bytes may stand between quotes, and writes their messages.

ghost use Rattle.std.specs.Prelude.{◌≡◌, false};
ghost use Rattle.capn_words.specs.Watched.{inner_of, has_failed};
ghost use Rattle.capn_make.specs.MadeTexts.{MadeTexts};

use crate::fault::MakeFault;
use crate::laws::refusing;
use crate::sink::run;
use crate::texts_input::QuotedTexts;
use capn_canon::Form;
use capn_words::Watched;
use std::alloc::Allocator;
use std::io::{Read, Write};

/// Parses the plain form of the texts of `reader`, and writes their messages to `writer` in this `form`. In the input a
/// list of bytes may stand on one line between quotes, as `bytes N "T"` or `bytes "T"` (see
/// [`capn_text::plain_text`]). Whatever [`crate::make`] refuses in the plain form is refused, and the fault names the
/// line of the input.
///
/// The call reads, writes and takes memory like [`crate::make`]. In addition it stores eight bytes for each line
/// between quotes in the texts that have no message yet. They serve to find the line of the input that is refused. The
/// unfinished line is also stored while its first 1,024 bytes may begin a line between quotes. Such a beginning is an
/// indent, `bytes `, a count or none, and bytes of a text between quotes, or a prefix of these. A line between quotes
/// may be of any length, and is not read before its end. A line whose first 1,024 bytes have a wrong byte is read as
/// it arrives, like any other line.
pub fn make_texts<R: Read, W: Write, A: Allocator + Copy>(
    alloc: A,
    form: Form,
    reader: &mut Watched<R>,
    writer: &mut Watched<W>,
) -> Result<(), MakeFault>
    requires reader_fine { has_failed reader.old ≡ false }
    requires writer_fine { has_failed writer.old ≡ false }
    ensures { MadeTexts form (R.remaining (inner_of reader.old)) (R.remaining (inner_of reader.new))
        (W.contents (inner_of writer.old)) (W.contents (inner_of writer.new)) (has_failed reader.new)
        (has_failed writer.new) result }
{
    refusing();
    let mut texts = QuotedTexts::new(alloc, form);
    run(&mut texts, reader, writer)
}
