//! Runs that an option selects: pack or unpack, and messages made from texts with or without quotes.

ghost use Rattle.std.specs.Prelude.{◌≡◌, false};
ghost use Rattle.capn_words.specs.Watched.{inner_of, has_failed};
ghost use Rattle.capn_tool.specs.Flushed.{Flowed, MadeBy};

use capn_args::{Flow, Make};
use capn_commands::{FlowFault, pack_stream, unpack_stream};
use capn_make::{MakeFault, make, make_texts};
use capn_words::Watched;
use std::alloc::Global;
use std::io::{Read, Write};

/// Packs the input if `flow` is `Pack`, or unpacks the input if `flow` is `Unpack`. Output is written before more input
/// is read.
pub(crate) fn flow_through<R: Read, W: Write>(
    alloc: Global,
    flow: Flow,
    reader: &mut Watched<R>,
    writer: &mut Watched<W>,
) -> Result<(), FlowFault>
    requires reader_fine { has_failed reader.old ≡ false }
    requires writer_fine { has_failed writer.old ≡ false }
    ensures { Flowed flow (R.remaining (inner_of reader.old)) (R.remaining (inner_of reader.new))
        (W.contents (inner_of writer.old)) (W.contents (inner_of writer.new)) (has_failed reader.new)
        (has_failed writer.new) result }
{
    match flow {
        Flow::Pack => pack_stream(alloc, reader, writer),
        Flow::Unpack => unpack_stream(alloc, reader, writer),
    }
}

/// Makes messages in `order.form` from the texts of the input. `order.quoted` says whether lists of bytes may stand
/// between quotes.
pub(crate) fn make_by<R: Read, W: Write>(
    alloc: Global,
    order: Make,
    reader: &mut Watched<R>,
    writer: &mut Watched<W>,
) -> Result<(), MakeFault>
    requires reader_fine { has_failed reader.old ≡ false }
    requires writer_fine { has_failed writer.old ≡ false }
    ensures { MadeBy order.quoted order.form (R.remaining (inner_of reader.old)) (R.remaining (inner_of reader.new))
        (W.contents (inner_of writer.old)) (W.contents (inner_of writer.new)) (has_failed reader.new)
        (has_failed writer.new) result }
{
    let form = order.form;
    if order.quoted {
        make_texts(alloc, form, reader, writer)
    } else {
        make(alloc, form, reader, writer)
    }
}
