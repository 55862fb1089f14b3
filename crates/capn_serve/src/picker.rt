//! The service of `pick`, over ranges of messages.

ghost use Rattle.std.specs.Prelude.{◌≡◌};
ghost use Rattle.capn_serve.specs.inner.Picker as spec;

use crate::adding::add_bytes;
use crate::begun::Begun;
use crate::fault::{RunFault, ServeFault};
use crate::finish::Finish;
use crate::pick::Range;
use crate::position::{Position, number_of};
use crate::service::Service;
use capn_canon::Refusal;
use capn_words::{Space, Watched};
use std::alloc::Allocator;
use std::io::Write;

/// The service of `pick`, which writes the frames of the messages in some ranges byte for byte, and walks no message.
/// The service looks only at the first range, and drops that range after its last message. So the cost of a message
/// does not depend on the number of ranges.
#[derive(Drop)]
pub(crate) struct Picker<'r> {
    /// The ranges of the messages that are still to be picked, in ascending order.
    pub rest: &'r [Range],
}

/// Tests whether `number` is in the first of the ranges `rest`.
#[inline(always)]
fn is_first(rest: &[Range], number: u128) -> bool
    ensures { result ≡ spec.is_first rest.now number }
{
    match rest {
        [range, ..] => u128::from(range.from) <= number && number <= u128::from(range.to),
        [] => false,
    }
}

/// Returns the ranges of `rest` that remain after the message with this `number`.
#[inline(always)]
fn left<'r>(rest: &'r [Range], number: u128) -> &'r [Range]
    ensures { result.now ≡ spec.left rest.now number }
{
    match rest {
        [range, after @ ..] => {
            if number < u128::from(range.to) {
                rest
            } else {
                after
            }
        }
        [] => rest,
    }
}

impl<'r> Service for Picker<'r> {
    ghost use Rattle.capn_serve.specs.inner.Picker as spec;

    ghost serves = { spec.serves };

    ghost refuses = { spec.refuses };

    ghost done = { spec.done };

    #[inline(always)]
    fn is_done(&self, _at: Position) -> bool {
        self.rest.is_empty()
    }

    fn serve<S: Space, W: Write, A: Allocator + Copy>(
        &mut self,
        _alloc: A,
        at: Position,
        frame: &[u8],
        _message: &S,
        text: &mut Vec<u8, A>,
        writer: &mut Watched<W>,
    ) -> Result<(), ServeFault> {
        let number = number_of(at.index);
        let writes = is_first(self.rest, number);
        self.rest = left(self.rest, number);
        if writes {
            return add_bytes(frame, text, writer);
        }
        Ok(())
    }
}

impl<'r> Finish for Picker<'r> {
    ghost use Rattle.capn_serve.specs.Finish.{no_closing, nothing_found, nothing_told, same_fault};

    type Found = ();

    type Fault = RunFault;

    ghost closing = { no_closing };

    ghost told = { nothing_told };

    ghost outcome = { nothing_found };

    ghost stops = { same_fault };

    fn write_closing<W: Write, A: Allocator + Copy>(
        &self,
        _alloc: A,
        _at: Position,
        _writer: &mut Watched<W>,
    ) -> Result<(), RunFault> {
        Ok(())
    }

    fn write_told<W: Write, A: Allocator + Copy>(
        &self,
        _alloc: A,
        _at: Position,
        _refusal: &Refusal,
        _begun: &Begun<A>,
        _writer: &mut Watched<W>,
    ) -> Result<(), RunFault> {
        Ok(())
    }

    fn outcome(&self, _at: Position) -> Result<(), RunFault> {
        Ok(())
    }

    fn stops(&self, _at: Position, stopped: RunFault) -> RunFault {
        stopped
    }
}
