//! The sink for texts with lists of bytes between quotes. It passes their plain form to the sink for texts.

ghost use Rattle.std.specs.Prelude.{◌≡◌};
ghost use Rattle.capn_text.specs.Unquoting.{first_unquoting, own_at};
ghost use Rattle.capn_make.specs.MadeTexts as texts;
ghost use Rattle.capn_make.specs.inner.RunParts.{IsFresh};

use crate::fault::MakeFault;
use crate::laws::following;
use crate::progress::Progress;
use crate::sink::Sink;
use capn_canon::Form;
use capn_text::Unquoter;
use capn_words::Watched;
use std::alloc::Allocator;
use std::io::Write;

/// A sink for texts with lists of bytes between quotes. The sink converts each complete line to its plain form, and
/// passes the plain form to a sink for texts.
#[derive(Drop)]
pub(crate) struct QuotedTexts<A: Allocator + Copy> {
    unquoter: Unquoter<A>,
    texts: Progress<A>,
}

/// Returns `fault`, with its line of the plain form replaced by the line of the input.
fn at_own<A: Allocator + Copy>(unquoter: &Unquoter<A>, fault: MakeFault) -> MakeFault
    ensures { result ≡ texts.at_own (own_at unquoter.now) fault }
{
    match fault {
        MakeFault::NotText(line) => MakeFault::NotText(unquoter.own_line(line)),
        MakeFault::Misfit(line, misfit) => MakeFault::Misfit(unquoter.own_line(line), misfit),
        MakeFault::Capability(line, index) => {
            MakeFault::Capability(unquoter.own_line(line), index)
        }
        MakeFault::Another(line) => MakeFault::Another(unquoter.own_line(line)),
        MakeFault::Memory | MakeFault::Io | MakeFault::InputTooLong | MakeFault::NoText => fault,
    }
}

impl<A: Allocator + Copy> QuotedTexts<A> {
    /// Creates the sink at the beginning of an input. Takes no memory.
    pub(crate) fn new(alloc: A, form: Form) -> QuotedTexts<A>
        ensures form { result.texts.form ≡ form }
        ensures new { IsFresh result.texts.made.items result.texts.rest.items result.texts.line result.texts.tested }
        ensures unread { result.unquoter ≡ first_unquoting }
    {
        QuotedTexts {
            unquoter: Unquoter::new(alloc),
            texts: Progress::new(alloc, form),
        }
    }
}

impl<A: Allocator + Copy> Sink for QuotedTexts<A> {
    ghost use Rattle.capn_make.specs.inner.TextsParts.{GivesTexts, IsUnderTexts};
    ghost use Rattle.capn_make.specs.declared.fault.MakeFault.TheVariants as faults;

    type Fault = MakeFault;

    type Task = Form;

    ghost task = { λ now. now.texts.form };

    ghost takes = { λ now bytes c d. IsUnderTexts now.texts.form bytes c d now.texts.made.items now.texts.rest.items
        now.texts.line now.texts.tested now.unquoter };

    ghost gives = { λ form bytes more c d r. GivesTexts form bytes more c d r };

    ghost io = { faults.Io };

    fn broken() -> MakeFault {
        MakeFault::Io
    }

    fn too_long(&self) -> MakeFault {
        MakeFault::InputTooLong
    }

    fn feed<W: Write>(&mut self, piece: &[u8], writer: &mut Watched<W>) -> Result<(), MakeFault> {
        following();
        let before = self.texts.rest.len();
        self.unquoter.push(piece, &mut self.texts.rest)?;
        match self.texts.look(before, writer) {
            Ok(()) => {
                self.unquoter.forget(self.texts.line);
                Ok(())
            }
            Err(fault) => Err(at_own(&self.unquoter, fault)),
        }
    }

    fn finish<W: Write>(&mut self, writer: &mut Watched<W>) -> Result<(), MakeFault> {
        following();
        self.unquoter.finish(&mut self.texts.rest)?;
        match self.texts.end(writer) {
            Ok(()) => Ok(()),
            Err(fault) => Err(at_own(&self.unquoter, fault)),
        }
    }
}
