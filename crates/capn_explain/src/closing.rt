//! The text that `explain` writes after the loop over the messages, and the result of the run.

ghost use Rattle.std.specs.Prelude.{◌≡◌, ◌++◌, codes, false, IfOk, IfErr, Some, string_bytes};
ghost use Rattle.capn_words.specs.Watched.{inner_of, has_failed};
ghost use Rattle.capn_serve.specs.Finish.{PutsText};
ghost use Rattle.capn_serve.specs.declared.fault.RunFault.TheVariants as faults;
ghost use Rattle.capn_explain.specs.Accounts.{account_text};
ghost use Rattle.capn_explain.specs.ExplainRun as spec;
ghost use Rattle.capn_explain.specs.Reports.{lines_first};
ghost use Rattle.capn_explain.specs.inner.Closing.{AreLines};

use crate::account::Account;
use crate::fault_lines::fault_lines;
use crate::order::{Order, Wanted};
use crate::outcome::Outcome;
use crate::reporter::Reporter;
use capn_canon::Refusal;
use capn_diagnostics::CountText;
use capn_serve::{Begun, Position, RunFault};
use capn_words::{Memory, Watched};
use std::alloc::Allocator;
use std::io::Write;

/// Returns the result of a run that read all of the input and explained no message during the loop.
fn rest_ending<A: Allocator>(
    wanted: Wanted,
    first: &Option<Result<Account<A>, Memory>>,
) -> Result<(), RunFault>
    ensures { result ≡ spec.rest_ending wanted (lines_first first.now) }
{
    match wanted {
        Wanted::Number(_) => Ok(()),
        Wanted::First | Wanted::Each => match first {
            Some(kept) => match kept {
                Ok(_) => Ok(()),
                Err(_) => Err(RunFault::Memory),
            },
            None => Ok(()),
        },
    }
}

/// Returns the ending of a run whose loop ended without a fault, with the last state `reporter`.
pub(crate) fn ending_of<A: Allocator + Copy>(reporter: &Reporter<A>) -> Result<(), RunFault>
    ensures { result ≡ spec.ending_by reporter.now.outcome reporter.now.order.wanted reporter.now.first }
{
    match reporter.explained() {
        Outcome::Refused(at, stopped) => Err(RunFault::Refused(at, Refusal::Walk(stopped))),
        Outcome::Nothing => rest_ending(reporter.order().wanted, reporter.first()),
        Outcome::Accepted | Outcome::Skipped(_) => Ok(()),
    }
}

fn count_line<A: Allocator>(alloc: A, count: CountText) -> Result<String<A>, RunFault>
    ensures found { IfOk result (λ line. string_bytes line ≡ spec.count_line count) }
    ensures only { IfErr result (λ e. e ≡ faults.Memory) }
{
    Ok(format!(in alloc; "{count}\n")?)
}

/// Returns the lines of `account`, the account of the only message.
fn only_lines<B: Allocator, A: Allocator>(
    alloc: A,
    account: &Account<B>,
) -> Result<String<A>, RunFault>
    ensures found { IfOk result (λ lines. string_bytes lines ≡ account_text account.now) }
    ensures only { IfErr result (λ e. e ≡ faults.Memory) }
{
    Ok(format!(in alloc; "{account}")?)
}

/// Returns the text of a run that read `count` messages and explained no message during the loop, or `None` if the text
/// is empty.
fn rest_lines<B: Allocator, A: Allocator>(
    alloc: A,
    wanted: Wanted,
    first: &Option<Result<Account<B>, Memory>>,
    count: u64,
) -> Result<Option<String<A>>, RunFault>
    ensures { AreLines (spec.rest_text wanted (lines_first first.now) count) result }
{
    let lines = match wanted {
        Wanted::Number(_) => count_line(alloc, CountText::Fewer(count))?,
        Wanted::First | Wanted::Each => match first {
            Some(kept) => match kept {
                Ok(account) => only_lines(alloc, account)?,
                Err(_) => return Ok(None),
            },
            None => count_line(alloc, CountText::NoneRefused(count))?,
        },
    };
    Ok(Some(lines))
}

/// Writes `lines`, which explain a message. If `lines` is empty, nothing is written.
fn write_kept<W: Write>(lines: &[u8], writer: &mut Watched<W>) -> Result<(), RunFault>
    requires { has_failed writer.old ≡ false }
    ensures { PutsText lines.now (W.contents (inner_of writer.old)) (W.contents (inner_of writer.new))
        (has_failed writer.new) result }
{
    if lines.is_empty() {
        return Ok(());
    }
    Ok(writer.write_all(lines)?)
}

/// Writes the text of a run that read `count` messages and explained no message during the loop.
fn write_rest<W: Write, B: Allocator, A: Allocator>(
    alloc: A,
    wanted: Wanted,
    first: &Option<Result<Account<B>, Memory>>,
    count: u64,
    writer: &mut Watched<W>,
) -> Result<(), RunFault>
    requires { has_failed writer.old ≡ false }
    ensures { PutsText (spec.rest_text wanted (lines_first first.now) count) (W.contents (inner_of writer.old))
        (W.contents (inner_of writer.new)) (has_failed writer.new) result }
{
    match rest_lines(alloc, wanted, first, count)? {
        Some(lines) => Ok(writer.write_all(lines.as_bytes())?),
        None => Ok(()),
    }
}

/// Writes the closing text of a run to `writer`. `reporter` is the last state, and `at` is the position after the last
/// message.
pub(crate) fn write_closing<W: Write, B: Allocator + Copy, A: Allocator + Copy>(
    alloc: A,
    reporter: &Reporter<B>,
    at: Position,
    writer: &mut Watched<W>,
) -> Result<(), RunFault>
    requires { has_failed writer.old ≡ false }
    ensures { PutsText (spec.closing reporter.now at) (W.contents (inner_of writer.old))
        (W.contents (inner_of writer.new)) (has_failed writer.new) result }
{
    match reporter.explained() {
        Outcome::Refused(_, _) | Outcome::Accepted => write_kept(reporter.lines(), writer),
        Outcome::Skipped(_) => Ok(()),
        Outcome::Nothing => {
            let wanted = reporter.order().wanted;
            write_rest(alloc, wanted, reporter.first(), at.index, writer)
        }
    }
}

/// Returns `lines`, followed by an empty line.
fn with_empty_line<A: Allocator>(mut lines: String<A>) -> Result<String<A>, RunFault>
    ensures found { IfOk result (λ more. string_bytes more ≡ string_bytes lines ++ codes "\n") }
    ensures only { IfErr result (λ e. e ≡ faults.Memory) }
{
    lines.push_str("\n")?;
    Ok(lines)
}

/// Returns the lines of the `refusal` that ended the loop over the messages at the position `at`. `begun` has the
/// bytes of the refused message that were read and kept. If every refused message is explained, an empty line follows.
fn refusal_lines<B: Allocator + Copy, A: Allocator>(
    alloc: A,
    order: &Order,
    at: Position,
    refusal: &Refusal,
    begun: &Begun<B>,
) -> Result<String<A>, RunFault>
    ensures found { IfOk result (λ lines. string_bytes lines ≡ spec.told_at order.now at refusal.now begun.now) }
    ensures only { IfErr result (λ e. e ≡ faults.Memory) }
{
    let rest = begun.message();
    let group = begun.group();
    let lines = fault_lines(alloc, order.limits, at, refusal, rest, group)?;
    match order.wanted {
        Wanted::Each => with_empty_line(lines),
        Wanted::First | Wanted::Number(_) => Ok(lines),
    }
}

/// Writes the lines of the `refusal` that ended the loop over the messages at the position `at`.
pub(crate) fn write_refusal<W: Write, B: Allocator + Copy, A: Allocator + Copy>(
    alloc: A,
    order: &Order,
    at: Position,
    refusal: &Refusal,
    begun: &Begun<B>,
    writer: &mut Watched<W>,
) -> Result<(), RunFault>
    requires { has_failed writer.old ≡ false }
    ensures { PutsText (spec.told_at order.now at refusal.now begun.now) (W.contents (inner_of writer.old))
        (W.contents (inner_of writer.new)) (has_failed writer.new) result }
{
    let lines = refusal_lines(alloc, order, at, refusal, begun)?;
    Ok(writer.write_all(lines.as_bytes())?)
}
