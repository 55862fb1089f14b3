//! The service `OneReporter`, a reporter of a run that explains one message.

ghost use Rattle.std.specs.Prelude.{◌≡◌};
ghost use Rattle.capn_explain.specs.Reports as spec;

use crate::closing::{ending_of, write_closing, write_refusal};
use crate::order::Order;
use crate::reporter::Reporter;
use capn_canon::Refusal;
use capn_serve::{Begun, Finish, Position, RunFault, ServeFault, Service};
use capn_words::{Space, Watched};
use std::alloc::Allocator;
use std::io::Write;
use std::marker::Model;

/// The service of a run that explains one message. It is a [`Reporter`] whose runs end with a [`RunFault`], since they
/// skip no message.
#[derive(Drop)]
pub(crate) struct OneReporter<A: Allocator> {
    reporter: Reporter<A>,
}

impl<A: Allocator> Model for OneReporter<A> {
    ghost use Rattle.capn_explain.specs.Reports.{Reporting};

    ghost Value = { Reporting };

    ghost view = { λ s. s.reporter };
}

impl<B: Allocator + Copy> OneReporter<B> {
    /// Returns a reporter that has explained no message. The call takes no memory.
    pub(crate) fn new(alloc: B, order: Order) -> OneReporter<B>
        ensures { result ≡ spec.first_reporting order }
    {
        OneReporter {
            reporter: Reporter::new(alloc, order),
        }
    }
}

impl<B: Allocator + Copy> Service for OneReporter<B> {
    ghost use Rattle.capn_explain.specs.Reports as spec;

    ghost serves = { spec.serves };

    ghost refuses = { spec.refuses };

    ghost done = { spec.done };

    #[inline(always)]
    fn is_done(&self, at: Position) -> bool {
        self.reporter.is_done(at)
    }

    fn serve<S: Space, W: Write, A: Allocator + Copy>(
        &mut self,
        alloc: A,
        at: Position,
        frame: &[u8],
        message: &S,
        text: &mut Vec<u8, A>,
        writer: &mut Watched<W>,
    ) -> Result<(), ServeFault> {
        self.reporter.serve(alloc, at, frame, message, text, writer)
    }
}

impl<B: Allocator + Copy> Finish for OneReporter<B> {
    ghost use Rattle.capn_explain.specs.ExplainRun as run;

    type Found = ();

    type Fault = RunFault;

    ghost closing = { run.closing };

    ghost told = { run.told };

    ghost outcome = { run.ending };

    ghost stops = { run.stops };

    fn write_closing<W: Write, A: Allocator + Copy>(
        &self,
        alloc: A,
        at: Position,
        writer: &mut Watched<W>,
    ) -> Result<(), RunFault> {
        write_closing(alloc, &self.reporter, at, writer)
    }

    fn write_told<W: Write, A: Allocator + Copy>(
        &self,
        alloc: A,
        at: Position,
        refusal: &Refusal,
        begun: &Begun<A>,
        writer: &mut Watched<W>,
    ) -> Result<(), RunFault> {
        let order = self.reporter.order();
        write_refusal(alloc, &order, at, refusal, begun, writer)
    }

    fn outcome(&self, _at: Position) -> Result<(), RunFault> {
        ending_of(&self.reporter)
    }

    fn stops(&self, _at: Position, stopped: RunFault) -> RunFault {
        stopped
    }
}
