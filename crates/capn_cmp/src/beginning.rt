//! A prefix of the text that `show` writes for canonical bytes. The length of the prefix is limited.

ghost use Rattle.std.specs.Prelude.{◌≡◌, [], IfErr, IfOk};
ghost use Rattle.capn_serve.specs.declared.fault.ServeFault.TheVariants as faults;
ghost use Rattle.capn_words.specs.Watched.{inner_of};
ghost use Rattle.capn_cmp.specs.ShownText.{IsShownFrom};
ghost use Rattle.capn_cmp.specs.inner.Ended.{IsEnded};

use capn_marks::{Marks, show_marked};
use capn_serve::ServeFault;
use capn_show::{Broken, ShowFault, put};
use capn_walk::Limits;
use capn_words::{Bare, Watched};
use std::alloc::Allocator;
use std::io::{self, Write};

/// The marks for each line of the text: only the path to the slot, as in `show --ways`.
const WAYS: Marks = Marks {
    offsets: false,
    ways: true,
    quoted: false,
    offset: 0,
    table: 0,
};

/// A writer that stores the first `room` bytes written to it, and no more. The memory is allocated before the first
/// write, so that a refused allocation is never mistaken for a full writer.
#[derive(Drop)]
struct Beginning<A: Allocator> {
    bytes: Vec<u8, A>,
    room: usize,
}

impl<A: Allocator> Write for Beginning<A> {
    ghost use Rattle.std.specs.Prelude.{Some};

    ghost contents = { λ beginning. Some beginning.bytes.items };

    fn write(&mut self, buf: &[u8]) -> io::Result<usize> {
        let count = buf.len().min(self.room.saturating_sub(self.bytes.len()));
        self.bytes.extend_from_slice(&buf[..count])?;
        Ok(count)
    }

    fn flush(&mut self) -> io::Result<()> {
        Ok(())
    }
}

/// Returns an empty vector with memory for `room` bytes.
fn with_room<A: Allocator>(alloc: A, room: usize) -> Result<Vec<u8, A>, ServeFault>
    ensures found { IfOk result (λ bytes. bytes.items ≡ []) }
    ensures only { IfErr result (λ e. e ≡ faults.Memory) }
{
    Ok(Vec::with_capacity(alloc, room)?)
}

/// Returns a writer that appends at most `room` bytes to `bytes`, which is empty.
fn new_writer<A: Allocator>(bytes: Vec<u8, A>, room: usize) -> Watched<Beginning<A>>
    requires empty { bytes.items ≡ [] }
    ensures empty { (inner_of result).bytes.items ≡ [] }
{
    Watched::new(Beginning { bytes, room })
}

/// Returns the bytes that `writer` has stored.
fn kept_by<A: Allocator>(writer: Watched<Beginning<A>>) -> Vec<u8, A>
    ensures { result.items ≡ (inner_of writer).bytes.items }
{
    writer.into_inner().bytes
}

/// Appends the line `end` to `text`, and writes `text` to `writer`. The error is `Io` (`writer` is full) or `Memory`.
fn end_text<A: Allocator>(
    text: &mut Vec<u8, A>,
    writer: &mut Watched<Beginning<A>>,
) -> Result<(), Broken>
    ensures { IsEnded (inner_of writer.old).bytes.items text.old.items (inner_of writer.new).bytes.items }
{
    put(text, writer, b"\tend\n")?;
    match writer.write_all(text) {
        Ok(()) => Ok(()),
        Err(_) => Err(Broken::Io),
    }
}

/// Returns a prefix of the text that `show --ways --form bare` writes for the `canonical` bytes. If the prefix is not
/// the complete text, its length is `room` bytes.
pub(crate) fn begin_text<A: Allocator + Copy>(
    alloc: A,
    limits: Limits,
    canonical: &[u8],
    room: usize,
) -> Result<Vec<u8, A>, ServeFault>
    ensures found { IfOk result (λ beginning. IsShownFrom canonical.now beginning.items) }
    ensures only { IfErr result (λ e. e ≡ faults.Memory) }
{
    let Ok(message) = Bare::new(canonical) else {
        return Err(ServeFault::Memory);
    };
    let bytes = with_room(alloc, room)?;
    let mut text = Vec::new(alloc);
    let mut writer = new_writer(bytes, room);
    match show_marked(alloc, &mut text, &mut writer, &message, limits, WAYS, &[]) {
        Ok(()) => match end_text(&mut text, &mut writer) {
            Ok(()) | Err(Broken::Io) => Ok(kept_by(writer)),
            Err(Broken::Memory) => Err(ServeFault::Memory),
        },
        Err(ShowFault::Io) => Ok(kept_by(writer)),
        Err(_) => Err(ServeFault::Memory),
    }
}
