//! Parses the next text of an input, and returns the bytes of its message.

ghost use Rattle.std.specs.Prelude.{◌≡◌, ◌≢◌, [], None, Some, IfErr, IsErrOf};
ghost use Rattle.capn_make.specs.inner.RunParts as spec;
ghost use Rattle.capn_make.specs.inner.RunParts.{IsAfter, MakesNext, MakesValue, TellsNext};

use crate::fault::MakeFault;
use crate::written_value::piece_of;
use capn_canon::{Form, LayoutFault};
use capn_text::{TextFault, Texts};
use capn_value::Tree;
use std::alloc::Allocator;

/// Converts the `fault` of the next text, which begins at `line`, to the fault of the run.
pub(crate) fn unread(line: u64, fault: TextFault) -> MakeFault
    ensures { result ≡ spec.unread line fault }
{
    match fault {
        TextFault::Memory => MakeFault::Memory,
        TextFault::Line(n) => MakeFault::NotText(n),
        TextFault::Cut(n) => MakeFault::NotText(n),
        TextFault::Misfit(misfit) => MakeFault::Misfit(line, misfit),
    }
}

/// Returns `true` if `fault` is the fault of an unfinished text, which more bytes may complete.
fn is_cut(fault: TextFault) -> bool
    ensures { result ≡ spec.is_cut fault }
{
    match fault {
        TextFault::Cut(_) => true,
        TextFault::Memory | TextFault::Line(_) | TextFault::Misfit(_) => false,
    }
}

/// Returns the bytes that are written in this `form` for `tree`, whose text begins at `line`.
fn made<A: Allocator + Copy>(
    alloc: A,
    form: Form,
    line: u64,
    tree: Tree<A>,
) -> Result<Vec<u8, A>, MakeFault>
    ensures { MakesValue form line tree result }
{
    match piece_of(alloc, form, &tree) {
        Ok(piece) => Ok(piece),
        Err(LayoutFault::Memory) => Err(MakeFault::Memory),
        Err(LayoutFault::Capability(index)) => Err(MakeFault::Capability(line, index)),
    }
}

/// Parses the next of the `texts` and returns the bytes of its message in this `form`, or `None` at the end of the
/// input. If a line is wrong, sets `cut` if more bytes may mend the line, and clears `cut` otherwise.
pub(crate) fn next_piece<A: Allocator + Copy>(
    alloc: A,
    form: Form,
    texts: &mut Texts,
    cut: &mut bool,
) -> Result<Option<Vec<u8, A>>, MakeFault>
    ensures after { IsAfter texts.old texts.new }
    ensures made { MakesNext form texts.old texts.new result }
    ensures cut { IfErr result (λ e. TellsNext texts.new cut.new e) }
    ensures memory { IsErrOf result MakeFault.Memory → texts.old.rest ≢ [] }
{
    let line = texts.line();
    match texts.read_next(alloc) {
        Ok(Some(tree)) => Ok(Some(made(alloc, form, line, tree)?)),
        Ok(None) => Ok(None),
        Err(fault) => {
            *cut = is_cut(fault);
            Err(unread(line, fault))
        }
    }
}
