//! The service `FilterService`, which copies the frames of accepted messages, or only of canonical ones.

ghost use Rattle.std.specs.Prelude.{◌≡◌, true};
ghost use Rattle.capn_archive.specs.FilterMessages.{first_state};
ghost use Rattle.capn_archive.specs.inner.FilterVerdict.{IsVerdict};

use crate::filter_order::FilterOrder;
use capn_canon::{Refusal, measure, survey};
use capn_serve::{Position, ServeFault, Service, SkippedSoFar, add_bytes, one_more};
use capn_walk::Limits;
use capn_words::{Space, Watched};
use std::alloc::Allocator;
use std::io::Write;

/// The service of `filter`. It writes the frame of each accepted message unchanged, or only the frames of canonical
/// messages.
///
/// Nothing is written for a message that is not let through. If `order.keep_going` is set, such a message is skipped
/// and counted. Otherwise the message ends the run. If its walk refuses the message, the run ends with that refusal. If
/// the message is accepted but not canonical, its position is stored in `ended`. The service itself takes no memory.
#[derive(Clone, Copy, Debug, PartialEq, Eq)]
pub struct FilterService {
    /// The options of the run.
    pub order: FilterOrder,
    /// The count of the skipped messages, if there are any.
    pub skipped: Option<SkippedSoFar>,
    /// The position of the message that ended the run because it is not canonical, if there is one.
    pub ended: Option<Position>,
}

/// The decision whether a message is let through.
#[derive(Clone, Copy)]
pub(crate) enum Verdict {
    /// The message is let through.
    Passes,
    /// The message is accepted but not canonical, and only canonical ones are let through.
    NotCanonical,
    /// The walk of the message refuses it.
    Refused(Refusal),
}

/// Decides whether `message` is let through as canonical, by the call `measure`, which `list` uses too. No canonical
/// bytes are made.
fn judge_canonical<S: Space, A: Allocator + Copy>(alloc: A, limits: Limits, message: &S) -> Verdict
    ensures { IsVerdict true (S.message message.now) limits result }
{
    match measure(alloc, message, limits) {
        Ok(measured) => {
            if measured.survey.is_canonical {
                return Verdict::Passes;
            }
            Verdict::NotCanonical
        }
        Err(stopped) => Verdict::Refused(Refusal::Walk(stopped)),
    }
}

/// Decides whether `message` is let through. The call takes no memory.
fn judge<S: Space, A: Allocator + Copy>(alloc: A, order: &FilterOrder, message: &S) -> Verdict
    ensures { IsVerdict order.now.canonical (S.message message.now) order.now.limits result }
{
    if order.canonical {
        return judge_canonical(alloc, order.limits, message);
    }
    match survey(alloc, message, order.limits) {
        Ok(_) => Verdict::Passes,
        Err(refusal) => Verdict::Refused(refusal),
    }
}

impl FilterService {
    /// Returns a service that has not served a message.
    pub(crate) fn new(order: FilterOrder) -> FilterService
        ensures { result ≡ first_state order }
    {
        FilterService {
            order,
            skipped: None,
            ended: None,
        }
    }
}

impl Service for FilterService {
    ghost use Rattle.capn_archive.specs.FilterMessages as spec;

    ghost serves = { spec.serves };

    ghost refuses = { spec.refuses };

    ghost done = { spec.done };

    #[inline(always)]
    fn is_done(&self, _at: Position) -> bool {
        self.ended.is_some()
    }

    fn serve<S: Space, W: Write, A: Allocator + Copy>(
        &mut self,
        alloc: A,
        at: Position,
        frame: &[u8],
        message: &S,
        text: &mut Vec<u8, A>,
        writer: &mut Watched<W>,
    ) -> Result<(), ServeFault> {
        match judge(alloc, &self.order, message) {
            Verdict::Passes => add_bytes(frame, text, writer),
            Verdict::NotCanonical => {
                if self.order.keep_going {
                    self.skipped = Some(one_more(self.skipped, at));
                    return Ok(());
                }
                self.ended = Some(at);
                Ok(())
            }
            Verdict::Refused(refusal) => {
                if self.order.keep_going {
                    self.skipped = Some(one_more(self.skipped, at));
                    return Ok(());
                }
                Err(ServeFault::Refused(refusal))
            }
        }
    }
}
