//! The run over the messages of an input in any of the three forms.

ghost use Rattle.std.specs.Prelude.{◌≡◌, ◌≤◌, false, IfErr, IfSome};
ghost use Rattle.capn_words.specs.Message.{most_message_words};
ghost use Rattle.capn_words.specs.Watched.{inner_of, has_failed};
ghost use Rattle.capn_serve.specs.Fold.{fold_until};
ghost use Rattle.capn_serve.specs.FormRun.{ServesMessages};
ghost use Rattle.capn_serve.specs.StreamRun.{start};
ghost use Rattle.capn_serve.specs.WhatCame.{TellsInput};

use crate::bare_run::run_bare;
use crate::begun::Begun;
use crate::fault::RunFault;
use crate::packed::new_packed;
use crate::packed_run::packed_into;
use crate::service::{Run, Service};
use crate::stream_run::stream_into;
use capn_canon::Form;
use capn_pack::Unpacker;
use capn_stream::Framer;
use capn_words::Watched;
use std::alloc::Allocator;
use std::io::{Read, Write};

/// Serves the messages of an input in `form`, and leaves the bytes of an unfinished message in `begun`. The other
/// arguments are those of [`serve_form`].
///
/// If the run ends because a frame or a packed group is cut off, `begun` holds all bytes that were read of the
/// unfinished message and of the unfinished group. If a frame has too many words, `begun` holds at least the segment
/// table of the frame. A bare input leaves `begun` unchanged. Any other input drops the earlier content of `begun`.
pub fn serve_form_with<S: Service, R: Read, W: Write, A: Allocator + Copy>(
    alloc: A,
    form: Form,
    most: u32,
    run: &mut Run<S>,
    begun: &mut Begun<A>,
    reader: &mut Watched<R>,
    writer: &mut Watched<W>,
) -> Result<(), RunFault>
    requires small { most ≤ most_message_words }
    requires fresh { run.old.at ≡ start }
    requires reader_fine { has_failed reader.old ≡ false }
    requires writer_fine { has_failed writer.old ≡ false }
    ensures serves { ServesMessages (fold_until S.serves S.refuses S.done most) run.old form
        (R.remaining (inner_of reader.old)) (R.remaining (inner_of reader.new))
        (W.contents (inner_of writer.old)) (W.contents (inner_of writer.new)) (has_failed reader.new)
        (has_failed writer.new) result run.new }
    ensures came { IfSome (R.remaining (inner_of reader.old)) (λ input. IfErr result (λ e.
        TellsInput (fold_until S.serves S.refuses S.done most) run.old form input e begun.new run.new)) }
{
    match form {
        Form::Stream => {
            let mut framer = Framer::new(alloc, most);
            let served = stream_into(alloc, most, u64::MAX, run, &mut framer, reader, writer);
            let unpacker = Unpacker::new();
            *begun = Begun { framer, unpacker };
            served
        }
        Form::Packed => {
            let mut packed = new_packed(alloc, most, u64::MAX);
            let served = packed_into(
                alloc,
                most,
                u64::MAX,
                u64::MAX,
                run,
                &mut packed,
                reader,
                writer,
            );
            let framer = packed.framer;
            let unpacker = packed.unpacker;
            *begun = Begun { framer, unpacker };
            served
        }
        Form::Bare => run_bare(alloc, run, reader, writer),
    }
}

/// Serves the messages of an input in `form`. `most` is the greatest number of words of a message in a frame. A stream
/// may have up to 2^64 - 1 bytes. In a packed stream this limit holds for the packed and for the unpacked bytes. The
/// faults are those of `run_stream`, `run_packed` and `run_bare`.
pub fn serve_form<S: Service, R: Read, W: Write, A: Allocator + Copy>(
    alloc: A,
    form: Form,
    most: u32,
    run: &mut Run<S>,
    reader: &mut Watched<R>,
    writer: &mut Watched<W>,
) -> Result<(), RunFault>
    requires small { most ≤ most_message_words }
    requires fresh { run.old.at ≡ start }
    requires reader_fine { has_failed reader.old ≡ false }
    requires writer_fine { has_failed writer.old ≡ false }
    ensures { ServesMessages (fold_until S.serves S.refuses S.done most) run.old form
        (R.remaining (inner_of reader.old)) (R.remaining (inner_of reader.new))
        (W.contents (inner_of writer.old)) (W.contents (inner_of writer.new)) (has_failed reader.new)
        (has_failed writer.new) result run.new }
{
    let mut begun = Begun::new(alloc);
    serve_form_with(alloc, form, most, run, &mut begun, reader, writer)
}
