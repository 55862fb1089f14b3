//! The service `Reporter`, which explains the messages that the options of a run select.

ghost use Rattle.std.specs.Prelude.{◌≡◌, false};
ghost use Rattle.capn_walk.specs.Accepted.{IsWalkRefused};
ghost use Rattle.capn_explain.specs.Reports as spec;
ghost use Rattle.capn_explain.specs.inner.Figures.{AreFigures};
ghost use Rattle.capn_explain.specs.Reports.{HasNumber, IsFirst, IsStopped, Keeps, MayNeedLines, Puts, ServesBy};
ghost use Rattle.capn_explain.specs.Reports.{TellsAccepted, TellsRefused};

use crate::account::{Account, account_of};
use crate::message_lines::{put_accepted, put_apart, told_of};
use crate::order::{Order, Wanted};
use crate::outcome::{Outcome, skipped_in};
use capn_serve::{Position, ServeFault, Service, flush_long, number_of, one_more};
use capn_walk::{Measured, Stopped, survey_depth};
use capn_words::{Memory, Space, Watched};
use std::alloc::{Allocator, Global};
use std::io::Write;
use std::marker::Model;

/// The service that explains messages.
///
/// `First` selects the first refused message. The service walks each message, explains the first refused one, and then
/// serves no further message. `Number` selects one message. The service skips the messages before that number, and does
/// not walk them. It explains the message with that number, refused or accepted, and then serves no further message. In
/// both cases nothing is written during the loop, because the lines are kept and written at the end.
///
/// `Each` selects every refused message. If the walk refuses a message, the service writes the lines that explain it,
/// and an empty line. The service counts the messages that it has explained.
///
/// A refused message does not end the loop with a fault. Without a number the service also keeps the account of an
/// accepted first message, until a later message is accepted, or is refused and counted. If an allocation was refused
/// for that account, the service keeps this fact.
#[derive(Drop)]
pub struct Reporter<A: Allocator = Global> {
    alloc: A,
    order: Order,
    outcome: Outcome,
    lines: Vec<u8, A>,
    first: Option<Result<Account<A>, Memory>>,
}

impl<A: Allocator> Model for Reporter<A> {
    ghost use Rattle.capn_explain.specs.Reports.{Reporting, lines_first};

    ghost Value = { Reporting };

    ghost view = { λ s. record {
      order = s.order;
      outcome = s.outcome;
      lines = s.lines.items;
      first = lines_first s.first;
    } };
}

/// Returns `true` if a number is `wanted`, and the message at `at` is before the message with that number.
fn is_before(at: Position, wanted: Wanted) -> bool
    ensures { result ≡ spec.is_before at wanted }
{
    match wanted {
        Wanted::Number(number) => number_of(at.index) < u128::from(number),
        Wanted::First | Wanted::Each => false,
    }
}

/// Returns the account of an accepted `message`, if the message is the first of the input.
fn first_of<S: Space, A: Allocator + Copy>(
    alloc: A,
    order: &Order,
    at: Position,
    message: &S,
    surveyed: Measured,
) -> Option<Result<Account<A>, Memory>>
    requires surveyed { AreFigures (S.message message.now) order.now.limits surveyed }
    ensures { IsFirst order.now.form at (S.message message.now) order.now.limits (spec.lines_first result) }
{
    if 0 < at.index {
        return None;
    }
    Some(account_of(alloc, order.form, at, message, order.limits, surveyed))
}

impl<B: Allocator + Copy> Reporter<B> {
    /// Returns a reporter that has explained no message. The call takes no memory.
    pub(crate) fn new(alloc: B, order: Order) -> Reporter<B>
        ensures { result ≡ spec.first_reporting order }
    {
        Reporter {
            alloc,
            order,
            outcome: Outcome::Nothing,
            lines: Vec::new(alloc),
            first: None,
        }
    }

    pub(crate) fn order(&self) -> Order
        ensures { result ≡ self.now.order }
    {
        self.order
    }

    /// Returns the messages explained so far.
    pub(crate) fn explained(&self) -> Outcome
        ensures { result ≡ self.now.outcome }
    {
        self.outcome
    }

    /// Returns the lines that are kept of an explained message, or no bytes if there are none.
    pub(crate) fn lines(&self) -> &[u8]
        ensures { result.now ≡ self.now.lines }
    {
        &self.lines
    }

    /// Returns the account of the first message, if that message is accepted, no later message has been accepted or
    /// counted, and the order has no number.
    pub(crate) fn first(&self) -> &Option<Result<Account<B>, Memory>>
        ensures { spec.lines_first result.now ≡ self.now.first }
    {
        &self.first
    }
}

impl<B: Allocator + Copy> Reporter<B> {
    /// Keeps the `outcome` of the explained message, and its `lines`.
    fn explain(&mut self, outcome: Outcome, lines: Vec<u8, B>)
        ensures { self.new ≡ spec.with_outcome self.old outcome lines.items }
    {
        self.outcome = outcome;
        self.lines = lines;
    }

    /// Counts the message at `at`, which has been explained, and keeps no account.
    fn count(&mut self, at: Position)
        ensures { self.new ≡ spec.with_one_more self.old at }
    {
        self.outcome = Outcome::Skipped(one_more(skipped_in(self.outcome), at));
        self.first = None;
    }

    /// Keeps `first`, the account of the first message.
    fn keep(&mut self, first: Option<Result<Account<B>, Memory>>)
        ensures { self.new ≡ spec.with_first self.old (spec.lines_first first) }
    {
        self.first = first;
    }

    /// Serves an accepted `message`. If the order has a number, explains the message. Otherwise, keeps the account of
    /// the message if it is the first of the input, and keeps no account if it is a later one.
    fn report_accepted<S: Space>(
        &mut self,
        at: Position,
        message: &S,
        surveyed: Measured,
    ) -> Result<(), ServeFault>
        requires surveyed { AreFigures (S.message message.now) self.old.order.limits surveyed }
        ensures { Keeps (TellsAccepted self.old at (S.message message.now)) (HasNumber self.old.order.wanted) result
            self.new }
    {
        let order = self.order();
        match order.wanted {
            Wanted::Number(_) => {
                let mut lines = Vec::new(self.alloc);
                put_accepted(self.alloc, &order, at, message, surveyed, &mut lines)?;
                self.explain(Outcome::Accepted, lines);
                Ok(())
            }
            Wanted::First | Wanted::Each => {
                self.keep(first_of(self.alloc, &order, at, message, surveyed));
                Ok(())
            }
        }
    }

    /// Serves a `message` whose walk ended with `stopped`. If every refused message is explained, appends the lines
    /// that explain it and an empty line to `text`. Otherwise, keeps the lines.
    fn report_refused<S: Space, A: Allocator + Copy>(
        &mut self,
        at: Position,
        message: &S,
        stopped: Stopped,
        text: &mut Vec<u8, A>,
    ) -> Result<(), ServeFault>
        requires refused { IsWalkRefused (S.message message.now) self.old.order.limits
            stopped.fault stopped.place stopped.paid stopped.visits }
        ensures { Puts (TellsRefused self.old at (S.message message.now))
            (IsStopped (S.message message.now) self.old.order.limits) text.old.items text.new.items result self.new }
    {
        let order = self.order();
        let told = told_of(self.alloc, &order, at, message, stopped)?;
        match order.wanted {
            Wanted::Each => {
                put_apart(told.text, text)?;
                self.count(at);
                Ok(())
            }
            Wanted::First | Wanted::Number(_) => {
                self.explain(Outcome::Refused(at, told.stopped), told.text);
                Ok(())
            }
        }
    }

    /// Walks `message`. If the order has a number, `message` does not come before that number.
    fn report_known<S: Space, A: Allocator + Copy>(
        &mut self,
        alloc: A,
        at: Position,
        message: &S,
        text: &mut Vec<u8, A>,
    ) -> Result<(), ServeFault>
        ensures { Puts (ServesBy false self.old at (S.message message.now))
            (MayNeedLines self.old.order (S.message message.now)) text.old.items text.new.items result self.new }
    {
        match survey_depth(alloc, message, self.order().limits) {
            Ok(surveyed) => self.report_accepted(at, message, surveyed),
            Err(stopped) => self.report_refused(at, message, stopped, text),
        }
    }

    /// Skips `message` if the order has a number, and `message` comes before that number. Otherwise walks `message`.
    fn report<S: Space, A: Allocator + Copy>(
        &mut self,
        alloc: A,
        at: Position,
        message: &S,
        text: &mut Vec<u8, A>,
    ) -> Result<(), ServeFault>
        ensures { Puts (ServesBy (spec.is_before at self.old.order.wanted) self.old at (S.message message.now))
            (MayNeedLines self.old.order (S.message message.now)) text.old.items text.new.items result self.new }
    {
        if is_before(at, self.order().wanted) {
            return Ok(());
        }
        self.report_known(alloc, at, message, text)
    }
}

impl<B: Allocator + Copy> Service for Reporter<B> {
    ghost use Rattle.capn_explain.specs.Reports as spec;

    ghost serves = { spec.serves };

    ghost refuses = { spec.refuses };

    ghost done = { spec.done };

    #[inline(always)]
    fn is_done(&self, _at: Position) -> bool {
        match self.outcome {
            Outcome::Nothing | Outcome::Skipped(_) => false,
            Outcome::Refused(_, _) | Outcome::Accepted => true,
        }
    }

    fn serve<S: Space, W: Write, A: Allocator + Copy>(
        &mut self,
        alloc: A,
        at: Position,
        _frame: &[u8],
        message: &S,
        text: &mut Vec<u8, A>,
        writer: &mut Watched<W>,
    ) -> Result<(), ServeFault> {
        self.report(alloc, at, message, text)?;
        flush_long(text, writer)
    }
}
