//! The canonical bytes of a message, written straight into the caller's buffer and reported.

ghost use Rattle.std.specs.Prelude.{◌+◌, ◌*◌};
ghost use Rattle.capn_walk.specs.Accepted.{IsValueOf};
ghost use Rattle.capn_canon.specs.Denotes.{AnswersMessage};
ghost use Rattle.capn_canon.specs.Refusal.{IsRefusedMessage};
ghost use Rattle.capn_c.specs.inner.Reported.{IsFilled};

use capn_abi::{CapnReport, DONE, NO_ROOM, answer_of, refuse};
use capn_canon::{CanonicalLength, IntoRefusal, Refusal, canonical_into_counted};
use capn_target::counted::{Asked, CountedSpace, CountedWriter, Reads};
use capn_walk::Limits;
use capn_words::Space;
use std::sync::ledger::Ledger;

/// The task of `write_message`: writes the canonical bytes of the message that it is run on into a buffer.
#[derive(Drop)]
struct IntoTask {
    limits: Limits,
}

impl CountedWriter for IntoTask {
    type Told = Result<CanonicalLength, IntoRefusal>;

    type Item = u8;

    ghost use Rattle.std.specs.Prelude.{◌+◌, ◌*◌};
    ghost use Rattle.capn_c.specs.inner.Written.{IsWrittenInto};

    ghost tells = { λ t m old new r. IsWrittenInto m t.limits old new r };

    ghost most = { λ t. 54 * (t.limits.budget + 1) };

    #[inline(always)]
    fn run<S: Space, L: Ledger>(
        self,
        space: &CountedSpace<'_, S, L>,
        out: &mut [u8],
        reads: &mut Reads<L>,
    ) -> Result<CanonicalLength, IntoRefusal> {
        space.bounds();
        canonical_into_counted(space, self.limits, out, reads)
    }
}

/// Writes the canonical bytes of the message `space` at the start of `out`, if they fit. Fills in `report`, and returns
/// the status. No memory is allocated.
///
/// `space` is any [`Asked`], so the clause `work` bounds how often the message is read.
#[inline(always)]
pub fn write_message<M: Asked>(
    space: M,
    limits: Limits,
    out: &mut [u8],
    report: &mut CapnReport,
) -> u32
    // `space` must allow 54 * (budget + 1) reads and turns of loops, and one more to start the count.
    requires work { M.allows space (54 * (limits.budget + 1) + 1) }
    ensures { IsFilled (IsValueOf (M.message space) limits) (AnswersMessage (M.message space) limits)
        (IsRefusedMessage (M.message space) limits) ⊥ limits out.old out.new result report.new }
{
    // The proof of the contract needs the ranges that these calls promise.
    let _budget = limits.budget();
    let _depth = limits.depth();
    match space.ask_into(IntoTask { limits }, out) {
        Ok(written) => {
            *report = answer_of(written.length as u64, written.paid, 0);
            DONE
        }
        Err(refusal) => match refusal {
            IntoRefusal::NoRoom { needed, paid } => {
                *report = answer_of(needed as u64, paid, 0);
                NO_ROOM
            }
            IntoRefusal::Walk(stopped) => refuse(Refusal::Walk(stopped), report),
            IntoRefusal::Capability(index) => refuse(Refusal::Capability(index), report),
        },
    }
}
