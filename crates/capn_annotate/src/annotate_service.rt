//! The service of `annotate`, which writes the lines of each message, and the end of its runs.

ghost use Rattle.std.specs.Prelude.{◌≡◌, false};

use crate::annotate_order::AnnotateOrder;
use crate::annotation::add_annotation;
use capn_canon::Refusal;
use capn_cover::cover_surveyed;
use capn_serve::{Begun, Finish, Position, RunFault, ServeFault, Service, fault_of_stop};
use capn_words::{Space, Watched};
use std::alloc::Allocator;
use std::io::Write;

impl Service for AnnotateOrder {
    ghost use Rattle.capn_annotate.specs.Annotation as spec;
    ghost use Rattle.capn_serve.specs.Fold.{never};

    ghost serves = { spec.serves };

    ghost refuses = { spec.refuses };

    ghost done = { never };

    #[inline(always)]
    fn is_done(&self, _at: Position) -> bool {
        false
    }

    fn serve<S: Space, W: Write, A: Allocator + Copy>(
        &mut self,
        alloc: A,
        at: Position,
        frame: &[u8],
        message: &S,
        text: &mut Vec<u8, A>,
        writer: &mut Watched<W>,
    ) -> Result<(), ServeFault> {
        let _bounds = message.segments();
        match cover_surveyed(alloc, message, self.limits) {
            Ok(cover) => add_annotation(
                alloc,
                self,
                at,
                frame,
                message,
                &cover.words,
                cover.survey,
                text,
                writer,
            ),
            Err(stopped) => Err(fault_of_stop(stopped)),
        }
    }
}

impl Finish for AnnotateOrder {
    ghost use Rattle.capn_serve.specs.Finish.{no_closing, nothing_found, nothing_told, same_fault};

    type Found = ();

    type Fault = RunFault;

    ghost closing = { no_closing };

    ghost told = { nothing_told };

    ghost outcome = { nothing_found };

    ghost stops = { same_fault };

    fn write_closing<W: Write, A: Allocator + Copy>(
        &self,
        _alloc: A,
        _at: Position,
        _writer: &mut Watched<W>,
    ) -> Result<(), RunFault> {
        Ok(())
    }

    fn write_told<W: Write, A: Allocator + Copy>(
        &self,
        _alloc: A,
        _at: Position,
        _refusal: &Refusal,
        _begun: &Begun<A>,
        _writer: &mut Watched<W>,
    ) -> Result<(), RunFault> {
        Ok(())
    }

    fn outcome(&self, _at: Position) -> Result<(), RunFault> {
        Ok(())
    }

    fn stops(&self, _at: Position, stopped: RunFault) -> RunFault {
        stopped
    }
}
