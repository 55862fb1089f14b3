//! The lines that explain one message.

ghost use Rattle.std.specs.Prelude.{◌≡◌, ◌++◌, codes, IfOk, IfErr, string_bytes};
ghost use Rattle.capn_walk.specs.Accepted.{IsWalkRefused};
ghost use Rattle.capn_serve.specs.declared.fault.ServeFault.TheVariants as faults;
ghost use Rattle.capn_explain.specs.Accounts.{account_text};
ghost use Rattle.capn_explain.specs.inner.Figures.{AreFigures};
ghost use Rattle.capn_explain.specs.Reports.{IsTold, PutsAccount, PutsText};

use crate::account::{Account, account_of};
use crate::order::Order;
use capn_diagnostics::{Explanation, explain_stop};
use capn_serve::{Position, ServeFault, table_words};
use capn_walk::{Measured, Stopped};
use capn_words::Space;
use std::alloc::Allocator;

/// Returns the lines that explain `message`, whose walk ended with `stopped`.
pub(crate) fn told_of<S: Space, A: Allocator + Copy>(
    alloc: A,
    order: &Order,
    at: Position,
    message: &S,
    stopped: Stopped,
) -> Result<Explanation<A>, ServeFault>
    requires refused { IsWalkRefused (S.message message.now) order.now.limits
        stopped.fault stopped.place stopped.paid stopped.visits }
    ensures told { IfOk result (λ told.
        IsTold order.now at (S.message message.now) told.stopped told.text.items) }
    ensures only { IfErr result (λ e. e ≡ faults.Memory) }
{
    let table = table_words(order.form, message);
    let told = explain_stop(
        alloc,
        message,
        at.index,
        at.offset,
        table,
        order.limits,
        stopped,
    )?;
    Ok(told)
}

/// Appends `bytes` to `text`, or nothing if an allocation is refused.
pub(crate) fn put_bytes<A: Allocator>(text: &mut Vec<u8, A>, bytes: &[u8]) -> Result<(), ServeFault>
    ensures { PutsText bytes.now text.old.items text.new.items result }
{
    Ok(text.extend_from_slice(bytes)?)
}

/// Appends `lines` and an empty line to `text`, or nothing if an allocation is refused.
pub(crate) fn put_apart<B: Allocator, A: Allocator>(
    mut lines: Vec<u8, B>,
    text: &mut Vec<u8, A>,
) -> Result<(), ServeFault>
    ensures { PutsText (lines.items ++ codes "\n") text.old.items text.new.items result }
{
    put_bytes(&mut lines, b"\n")?;
    put_bytes(text, &lines)
}

fn lines_of<B: Allocator, A: Allocator>(
    alloc: A,
    account: &Account<B>,
) -> Result<String<A>, ServeFault>
    ensures found { IfOk result (λ lines. string_bytes lines ≡ account_text account.now) }
    ensures only { IfErr result (λ e. e ≡ faults.Memory) }
{
    Ok(format!(in alloc; "{account}")?)
}

/// Appends the lines of `account` to `text`, or nothing if an allocation is refused.
fn put_account<B: Allocator, A: Allocator + Copy>(
    alloc: A,
    account: &Account<B>,
    text: &mut Vec<u8, A>,
) -> Result<(), ServeFault>
    ensures { PutsText (account_text account.now) text.old.items text.new.items result }
{
    let lines = lines_of(alloc, account)?;
    put_bytes(text, lines.as_bytes())
}

/// Appends the lines that explain `message` to `text`, or nothing if an allocation is refused. The message is accepted,
/// and `surveyed` has its figures.
pub(crate) fn put_accepted<S: Space, A: Allocator + Copy>(
    alloc: A,
    order: &Order,
    at: Position,
    message: &S,
    surveyed: Measured,
    text: &mut Vec<u8, A>,
) -> Result<(), ServeFault>
    requires surveyed { AreFigures (S.message message.now) order.now.limits surveyed }
    ensures { PutsAccount order.now at (S.message message.now) text.old.items text.new.items result }
{
    let account = account_of(alloc, order.form, at, message, order.limits, surveyed)?;
    put_account(alloc, &account, text)
}
