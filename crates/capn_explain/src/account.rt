//! The lines in which `explain` describes an accepted message.

ghost use Rattle.std.specs.Prelude.{◌≡◌, IfOk, IsErr};
ghost use Rattle.capn_mismatch.specs.Mismatches.{HasMismatch};
ghost use Rattle.capn_explain.specs.Accounts as spec;
ghost use Rattle.capn_explain.specs.Accounts.{IsAccount};
ghost use Rattle.capn_explain.specs.inner.Figures.{AreFigures};

use capn_canon::{Form, MeasuredBare};
use capn_diagnostics::{MessageHead, SegmentsText};
use capn_mismatch::{CanonicalLines, lines_of_measured, measure_surveyed};
use capn_serve::{Position, table_words};
use capn_walk::{Limits, Measured};
use capn_words::{Memory, Space};
use std::alloc::{Allocator, Global};
use std::fmt;

/// The facts about an accepted message, displayed in lines.
#[derive(Debug, Drop)]
pub struct Account<A: Allocator = Global> {
    /// The position and the size of the message.
    pub head: MessageHead,
    /// The number of words that the walk pays.
    pub paid: u32,
    /// The number of slots that the walk visits.
    pub visits: u32,
    /// The least limit on depth within which the message is accepted.
    pub depth: u32,
    /// The lines about the canonical form of the message.
    pub lines: CanonicalLines<A>,
}

impl<A: Allocator> fmt::Display for Account<A> {
    ghost use Rattle.std.specs.Prelude.{Some};
    ghost use Rattle.capn_explain.specs.Accounts.{account_text};

    ghost output = { λ account. Some (account_text account) };

    fn fmt<W: fmt::Write>(&self, f: &mut fmt::Formatter<W>) -> fmt::Result {
        let head = self.head;
        let paid = self.paid;
        let visits = self.visits;
        let depth = self.depth;
        write!(
            f,
            "{head}accepted: paid {paid} visits {visits} depth {depth}\n{}",
            &self.lines
        )
    }
}

/// Returns the account of `message` at `at`, with the figures in `measured` and the `lines` about the canonical form.
fn account_by<S: Space, A: Allocator>(
    at: Position,
    message: &S,
    measured: MeasuredBare,
    lines: CanonicalLines<A>,
) -> Account<A>
    ensures { result ≡ spec.account_by at (S.message message.now) measured lines }
{
    Account {
        head: MessageHead {
            index: at.index,
            offset: at.offset,
            segments: Some(SegmentsText::of(message)),
        },
        paid: measured.survey.paid,
        visits: measured.survey.visits,
        depth: measured.depth,
        lines,
    }
}

/// Returns the account of `message`, which is accepted within `limits` with the figures in `surveyed`.
///
/// `Memory` is returned only if an allocation on `alloc` was refused, and only for a message of one segment that is not
/// canonical. The call takes the memory that [`lines_of_measured`] takes.
pub(crate) fn account_of<S: Space, A: Allocator + Copy>(
    alloc: A,
    form: Form,
    at: Position,
    message: &S,
    limits: Limits,
    surveyed: Measured,
) -> Result<Account<A>, Memory>
    requires surveyed { AreFigures (S.message message.now) limits surveyed }
    ensures found { IfOk result (λ account. IsAccount form at (S.message message.now) limits account) }
    ensures memory { IsErr result → HasMismatch (S.message message.now) limits }
{
    let measured = measure_surveyed(message, limits, surveyed);
    let table = table_words(form, message);
    let lines = lines_of_measured(alloc, message, limits, measured, at.offset, table)?;
    Ok(account_by(at, message, measured, lines))
}
