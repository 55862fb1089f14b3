//! Lists of bytes that JSON writes as strings.

ghost use Rattle.std.specs.Prelude.{IfErr, OnOk};
ghost use Rattle.capn_show.specs.JsonTexts.{text_json};
ghost use Rattle.capn_show.specs.Outgoing.{Adds, BreaksOff, outgoing};

use crate::escapes::put_escapes;
use crate::fault::Broken;
use crate::output::put;
use capn_words::Watched;
use std::alloc::Allocator;
use std::io::Write;

/// Appends the JSON of the list `bytes` to `text`: an object with a string of the bytes before the last byte.
pub fn json_text<W: Write, A: Allocator>(
    text: &mut Vec<u8, A>,
    writer: &mut Watched<W>,
    bytes: &[u8],
) -> Result<(), Broken>
    ensures shown { OnOk result (Adds (outgoing W.contents writer.old text.old.items)
        (outgoing W.contents writer.new text.new.items) (text_json bytes.now)) }
    ensures cut { IfErr result (λ e. BreaksOff (outgoing W.contents writer.old text.old.items)
        (outgoing W.contents writer.new text.new.items) e (text_json bytes.now)) }
{
    put(text, writer, b"{\"text\":\"")?;
    put_escapes(text, writer, &bytes[..bytes.len().saturating_sub(1)])?;
    put(text, writer, b"\"}")
}
