//! The service `CmpService`, which compares each message with the first one.

ghost use Rattle.std.specs.Prelude.{◌≡◌, false};
ghost use Rattle.capn_words.specs.Watched.{inner_of, has_failed};
ghost use Rattle.capn_serve.specs.Outgoing.{outgoing};
ghost use Rattle.capn_cmp.specs.CmpMessages as spec;
ghost use Rattle.capn_cmp.specs.CmpMessages.{TriesToCompare};

use crate::report::find_report;
use capn_canon::{Refusal, canonical_of, own_canonical};
use capn_serve::{Position, ServeFault, Service, add_bytes};
use capn_walk::Limits;
use capn_words::{Space, Watched};
use std::alloc::Allocator;
use std::io::Write;
use std::marker::Model;

/// The service that compares each message with the first one.
///
/// A message that is refused, by its walk or for a capability, ends the run. The service stores the canonical bytes of
/// the first message. At the first message with other canonical bytes, the service writes the position of that message,
/// and the first lines that differ in the texts of both values. Then the service is finished. Nothing is written for
/// any other message.
#[derive(Drop)]
pub struct CmpService<A: Allocator> {
    limits: Limits,
    first: Vec<u8, A>,
    differs: bool,
}

impl<A: Allocator> Model for CmpService<A> {
    ghost use Rattle.capn_cmp.specs.CmpMessages.{CmpState};

    ghost Value = { CmpState };

    ghost view = { λ s. record { limits = s.limits; first = s.first.items; differs = s.differs } };
}

impl<B: Allocator> CmpService<B> {
    /// Returns a service that has not served a message. The call takes no memory.
    pub(crate) fn new(alloc: B, limits: Limits) -> CmpService<B>
        ensures { result ≡ spec.first_state limits }
    {
        CmpService {
            limits,
            first: Vec::new(alloc),
            differs: false,
        }
    }

    /// Returns `true` if a message differed from the first one.
    pub(crate) fn differs(&self) -> bool
        ensures { result ≡ self.now.differs }
    {
        self.differs
    }

    /// If the message at `at` is the first, stores its `canonical` bytes. Otherwise compares `canonical` with the bytes
    /// of the first message, and adds the report on the message to the output if they differ.
    #[tactic(auto, using(crate::proofs::CmpServed::keeps, crate::proofs::CmpServed::no_memory))]
    fn compare<W: Write, A: Allocator + Copy>(
        &mut self,
        alloc: A,
        at: Position,
        canonical: &[u8],
        text: &mut Vec<u8, A>,
        writer: &mut Watched<W>,
    ) -> Result<(), ServeFault>
        requires { has_failed writer.old ≡ false }
        ensures { TriesToCompare self.old at canonical.now
            (outgoing (W.contents (inner_of writer.old)) text.old.items)
            (outgoing (W.contents (inner_of writer.new)) text.new.items) (has_failed writer.new) result self.new }
    {
        if at.index == 0 {
            self.first.clear();
            return Ok(self.first.extend_from_slice(canonical)?);
        }
        if self.first.as_slice() == canonical {
            return Ok(());
        }
        let report = find_report(alloc, at, self.limits, &self.first, canonical)?;
        self.differs = true;
        add_bytes(&report, text, writer)
    }
}

impl<B: Allocator> Service for CmpService<B> {
    ghost use Rattle.capn_cmp.specs.CmpMessages as spec;

    ghost serves = { spec.serves };

    ghost refuses = { spec.refuses };

    ghost done = { spec.done };

    #[inline(always)]
    fn is_done(&self, _at: Position) -> bool {
        self.differs()
    }

    fn serve<S: Space, W: Write, A: Allocator + Copy>(
        &mut self,
        alloc: A,
        at: Position,
        _frame: &[u8],
        message: &S,
        text: &mut Vec<u8, A>,
        writer: &mut Watched<W>,
    ) -> Result<(), ServeFault> {
        let limits = self.limits;
        if let Some(own) = own_canonical(message, limits) {
            return self.compare(alloc, at, own.bytes, text, writer);
        }
        let _budget = limits.budget();
        match canonical_of(alloc, message, limits) {
            Ok(canonical) => self.compare(alloc, at, &canonical.bytes, text, writer),
            Err(Refusal::Memory) => Err(ServeFault::Memory),
            Err(refusal) => Err(ServeFault::Refused(refusal)),
        }
    }
}
