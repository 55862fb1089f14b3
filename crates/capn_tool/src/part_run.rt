//! The run of `show`, over all messages of an input or over exactly one.

ghost use Rattle.std.specs.Prelude.{◌≡◌, false};
ghost use Rattle.capn_tool.specs.PartRun as spec;
ghost use Rattle.capn_words.specs.Watched.{inner_of, has_failed};
ghost use Rattle.capn_tool.specs.PartRun.{PartsShown};

use capn_args::{Show, numbers_of};
use capn_canon::Form;
use capn_commands::{PartTexts, ToolFault, run_show, serve_one};
use capn_serve::StreamForm;
use capn_words::Watched;
use std::alloc::Allocator;
use std::io::{Read, Write};

/// Returns the encoding of the input if `show.one` is set and the message is in a frame, and otherwise `None`.
fn one_frame(show: &Show) -> Option<StreamForm>
    ensures { result ≡ spec.one_frame show.now.one show.now.form }
{
    if !show.one {
        return None;
    }
    match show.form {
        Form::Stream => Some(StreamForm::Stream),
        Form::Packed => Some(StreamForm::Packed),
        Form::Bare => None,
    }
}

/// Writes the text of messages, or of the value at a path from each root, in a style or with marks. [`run_show`] shows
/// each message of an input, and [`serve_one`] shows the message of an input that has to be exactly one frame. Memory
/// is allocated for the numbers of a path.
pub fn show_parts<R: Read, W: Write, A: Allocator + Copy>(
    alloc: A,
    show: &Show,
    reader: &mut Watched<R>,
    writer: &mut Watched<W>,
) -> Result<(), ToolFault>
    requires reader_fine { has_failed reader.old ≡ false }
    requires writer_fine { has_failed writer.old ≡ false }
    ensures { PartsShown show.now (R.remaining (inner_of reader.old)) (R.remaining (inner_of reader.new))
        (W.contents (inner_of writer.old)) (W.contents (inner_of writer.new)) (has_failed reader.new)
        (has_failed writer.new) result }
{
    let path = numbers_of(alloc, show.path)?;
    let texts = PartTexts {
        path: &path,
        form: show.form,
        limits: show.limits,
        style: show.style,
        offsets: show.offsets,
        ways: show.ways,
    };
    match one_frame(show) {
        Some(form) => {
            let most = show.limits.message_words();
            serve_one(alloc, texts, form, most, reader, writer)
        }
        None => {
            run_show(alloc, &texts, reader, writer)?;
            Ok(())
        }
    }
}
