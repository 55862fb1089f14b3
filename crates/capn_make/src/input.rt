//! The implementation of `Sink` for an input of texts.

use crate::fault::MakeFault;
use crate::progress::Progress;
use crate::sink::Sink;
use capn_canon::Form;
use capn_words::Watched;
use std::alloc::Allocator;
use std::io::Write;

/// A sink for texts. Before more input is read, it writes the messages of all complete texts. In form `Bare` it writes
/// only at the end of the input.
impl<A: Allocator + Copy> Sink for Progress<A> {
    ghost use Rattle.capn_make.specs.inner.RunParts.{GivesMade, IsUnderWay};
    ghost use Rattle.capn_make.specs.declared.fault.MakeFault.TheVariants as faults;

    type Fault = MakeFault;

    type Task = Form;

    ghost task = { λ now. now.form };

    ghost takes = { λ now bytes c d. IsUnderWay now.form bytes c d now.made.items now.rest.items now.line now.tested };

    ghost gives = { λ form bytes more c d r. GivesMade form bytes more c d r };

    ghost io = { faults.Io };

    fn broken() -> MakeFault {
        MakeFault::Io
    }

    fn too_long(&self) -> MakeFault {
        MakeFault::InputTooLong
    }

    fn feed<W: Write>(&mut self, piece: &[u8], writer: &mut Watched<W>) -> Result<(), MakeFault> {
        let before = self.rest.len();
        self.rest.extend_from_slice(piece)?;
        self.look(before, writer)
    }

    fn finish<W: Write>(&mut self, writer: &mut Watched<W>) -> Result<(), MakeFault> {
        self.end(writer)
    }
}
