//! The reading of one text as a tree, and of the value at the front of a longer text.

ghost use Rattle.std.specs.Prelude.{◌≡◌, ◌≢◌, ◌⊎◌, ◌≤◌, ◌+◌, ◌++◌, ℕ, List, [], length, IfOk, IfErr, OnOk, OnErr};
ghost use Rattle.std.specs.Prelude.{MatchResult, Some, None, true, false};
ghost use Rattle.capn_value.specs.Tree as trees;
ghost use Rattle.capn_value.specs.TreeOf.{tree_of};
ghost use Rattle.capn_value.specs.Cost.{height, most_height};
ghost use Rattle.capn_value.specs.Fits.{Fits, misfit};
ghost use Rattle.capn_value.specs.InRange.{InRange};
ghost use Rattle.capn_value.specs.Text.{show_text};
ghost use Rattle.capn_value.specs.declared.misfit.Misfit.{Misfit};
ghost use Rattle.capn_value.specs.declared.misfit.Misfit.TheVariants.{Tall};
ghost use Rattle.capn_text.specs.Showable.{IsShowable};
ghost use Rattle.capn_text.specs.inner.Values as values;
ghost use Rattle.capn_text.specs.inner.Tokens.{strip};
ghost use Rattle.capn_text.specs.Streams.{end_line, ended_lines, ended_text, BeginsAs};
ghost use Rattle.capn_text.specs.Streams.{IsFirstWrong, GoesTooDeep, MayGoOn, Names, few};
ghost use Rattle.capn_text.specs.inner.Stops.{IsLineLost};
ghost use Rattle.capn_text.specs.declared.fault.TextFault.TheVariants as faults;

use crate::contents::value_at;
use crate::fault::{Stop, TextFault};
use crate::heads::head_at;
use crate::lines::lines_before;
use crate::tokens::is_short;
use capn_value::{MOST_HEIGHT, Misfit, Tree, Value};
use std::alloc::Allocator;

/// Reads `text` as the tree for which [`capn_value::show`] writes this text.
///
/// Returns [`TextFault::Line`] if `text` is not the text of a value. Returns [`TextFault::Misfit`] if `text` is the
/// text of a value that fits into no message. A text that goes deeper than 256 levels is `Tall`, even if a later line
/// is wrong. Returns [`TextFault::Memory`] if an allocation is refused. Takes time linear in the text. Takes memory of
/// `alloc` for the tree, up to twice as much for lists while they grow. The stack holds at most 257 values.
pub fn read<A: Allocator + Copy>(alloc: A, text: &[u8]) -> Result<Tree<A>, TextFault>
    // If a tree is returned, `text` is its text.
    ensures found { IfOk result (λ t. text.now ≡ show_text t) }
    // If `text` is the text of a tree, that tree is returned, unless an allocation is refused.
    ensures only { (v : trees.Tree) → Fits v → InRange v → text.now ≡ show_text v →
        MatchResult result (λ t. t ≡ v) (λ e. e ≡ faults.Memory) }
    // If the fault is `Line`, `text` is not the text of any showable value of at most 256 levels. The value need not
    // fit into a message.
    ensures line { IfErr result (λ e. (n : ℕ) → e ≡ faults.Line n → (v : trees.Tree) → IsShowable v →
        height v ≤ most_height → text.now ≢ show_text v) }
    // If an error does not name line 1, the first line of `text` begins some value.
    ensures begun { IfErr result (λ e. e ≢ faults.Line 1 → (v : trees.Tree) × BeginsAs text.now v) }
    // If the fault is `Line`, that line is the first wrong line of `text`.
    ensures first { IfErr result (λ e. (n : ℕ) → e ≡ faults.Line n → IsFirstWrong show_text n text.now) }
    // If the fault is a misfit, there are two cases. In one, `text` is the text of a value of at most 256 levels with
    // that misfit. In the other, the misfit is `Tall`, and `text` goes too deep.
    ensures misfit { IfErr result (λ e. (m : Misfit) → e ≡ faults.Misfit m →
        ((m ≡ Tall) × GoesTooDeep text.now) ⊎ ((v : trees.Tree) × InRange v × IsShowable v
        × (height v ≤ most_height) × (text.now ≡ show_text v) × (misfit v ≡ Some m))) }
{
    let (value, rest) = match first_value(alloc, text) {
        Ok((value, rest)) => (value, rest),
        Err(fault) => return Err(ended(fault)),
    };
    if has_more(rest) {
        drop(value);
        return Err(TextFault::Line(lines_before(text, rest.len()) + 1));
    }
    let tree = fitting(value)?;
    Ok(tree)
}

// Converts the fault `Cut` to the fault `Line`, since no bytes follow. Returns any other `fault` unchanged.
fn ended(fault: TextFault) -> TextFault
    ensures memory { fault ≡ faults.Memory → result ≡ faults.Memory }
    ensures line { (n : ℕ) → result ≡ faults.Line n → Names fault n }
    ensures first { Names fault 1 → result ≡ faults.Line 1 }
    ensures misfit { (m : Misfit) → result ≡ faults.Misfit m → fault ≡ faults.Misfit m }
{
    match fault {
        TextFault::Memory => TextFault::Memory,
        TextFault::Line(n) => TextFault::Line(n),
        TextFault::Cut(n) => TextFault::Line(n),
        TextFault::Misfit(misfit) => TextFault::Misfit(misfit),
    }
}

/// Returns `true` if `rest` has any bytes.
pub fn has_more(rest: &[u8]) -> bool
    ensures more { result ≡ true → rest.now ≢ [] }
    ensures over { result ≡ false → rest.now ≡ [] }
{
    match rest {
        [] => false,
        _ => true,
    }
}

/// Reads the value whose text is at the front of `text`, and returns the value with the bytes after its text. The value
/// need not fit into a message.
pub fn first_value<A: Allocator + Copy>(
    alloc: A,
    text: &[u8],
) -> Result<(Value<A>, &[u8]), TextFault>
    ensures found { IfOk result (λ x. text.now ≡ show_text (tree_of x.0) ++ x.1.now) }
    ensures range { IfOk result (λ x. InRange (tree_of x.0)) }
    ensures showable { IfOk result (λ x. IsShowable (tree_of x.0)) }
    ensures low { IfOk result (λ x. height (tree_of x.0) ≤ most_height) }
    // If the text of a showable value of at most 256 levels is at the front, that value is read, unless an allocation
    // is refused.
    ensures only { (v : trees.Tree) (rest : List ℕ) → IsShowable v → height v ≤ most_height →
        text.now ≡ show_text v ++ rest →
        MatchResult result (λ x. (tree_of x.0 ≡ v) × (x.1.now ≡ rest)) (λ e. e ≡ faults.Memory) }
    // If the fault names a line, it is a line of `text`, or the line after the last line.
    ensures place { IfErr result (λ e. (n : ℕ) → Names e n → (1 ≤ n) × (n ≤ ended_lines text.now + 1)) }
    // If a value is read, or if an error does not name line 1, the first line of `text` begins some value.
    ensures begins { IfOk result (λ x. (v : trees.Tree) × BeginsAs text.now v) }
    ensures begun { IfErr result (λ e. (Names e 1 → ⊥) → (v : trees.Tree) × BeginsAs text.now v) }
    // If the fault names a line, that line is the first wrong line of `text`, both for texts without the line `end` and
    // for texts with it.
    ensures first { IfErr result (λ e. (n : ℕ) → Names e n → IsFirstWrong show_text n text.now) }
    ensures first_ended { IfErr result (λ e. (n : ℕ) → Names e n → IsFirstWrong ended_text n text.now) }
    // If the fault is `Line`, that line is the first wrong line whatever bytes follow `text`, for texts with the line
    // `end`.
    ensures lost { IfErr result (λ e. (n : ℕ) → e ≡ faults.Line n → (more : List ℕ) →
        IsFirstWrong ended_text n (text.now ++ more)) }
    // If the fault is `Line`, `text ++ more` does not begin with the text of a showable value of at most 256 levels,
    // for any bytes `more`.
    ensures none { IfErr result (λ e. (n : ℕ) → e ≡ faults.Line n → (more : List ℕ) → (v : trees.Tree)
        (rest : List ℕ) → IsShowable v → height v ≤ most_height → text.now ++ more ≢ show_text v ++ rest) }
    // If the fault is `Cut`, `text` with at most 2,048 bytes removed from its end is a prefix of the text and line
    // `end` of some value.
    ensures open { IfErr result (λ e. (n : ℕ) → e ≡ faults.Cut n → MayGoOn text.now) }
    // If bytes follow the value that was read, the line after the value is the first wrong line for texts without the
    // line `end`. If that line is not `end`, it is also the first wrong line for texts with the line `end`.
    ensures more { IfOk result (λ x. x.1.now ≢ [] →
        IsFirstWrong show_text (ended_lines (show_text (tree_of x.0)) + 1) text.now) }
    ensures no_end { IfOk result (λ x. (more : List ℕ) → strip end_line (x.1.now ++ more) ≡ None →
        IsFirstWrong ended_text (ended_lines (show_text (tree_of x.0)) + 1) (text.now ++ more)) }
    // If the fault is a misfit, it is `Tall`, and `text` goes too deep.
    ensures tall { IfErr result (λ e. (m : Misfit) → e ≡ faults.Misfit m → m ≡ Tall) }
    ensures deep { IfErr result (λ e. (m : Misfit) → e ≡ faults.Misfit m → GoesTooDeep text.now) }
{
    // The first line is tested before any allocation.
    if let Err(fault) = first_line(text) {
        return Err(fault);
    }
    match value_at(alloc, MOST_HEIGHT, 0, text) {
        Ok((value, rest)) => Ok((value, rest)),
        Err(Stop::Memory) => Err(TextFault::Memory),
        Err(Stop::Left(left)) => Err(TextFault::Line(lines_before(text, left) + 1)),
        Err(Stop::Cut(left)) => Err(TextFault::Cut(lines_before(text, left) + 1)),
        Err(Stop::Deep) => Err(TextFault::Misfit(Misfit::Tall)),
    }
}

/// Tests that the first line of `text` begins a value. If it does not, the fault is `Cut` if more bytes may complete
/// the line, and `Line` otherwise.
pub fn first_line(text: &[u8]) -> Result<(), TextFault>
    ensures some { OnOk result ((v : trees.Tree) × BeginsAs text.now v) }
    ensures other { OnErr result ((v : trees.Tree) → BeginsAs text.now v → ⊥) }
    ensures none { OnErr result (values.head_at 0 text.now ≡ None) }
    ensures line { IfErr result (λ e. Names e 1) }
    // If the fault is `Line`, the line begins no value whatever bytes follow. If the fault is `Cut`, `text` has at most
    // 2,048 bytes.
    ensures lost { IfErr result (λ e. e ≡ faults.Line 1 → IsLineLost (values.head_at 0) text.now) }
    ensures open { IfErr result (λ e. e ≡ faults.Cut 1 → length text.now ≤ few) }
{
    match head_at(0, text) {
        Ok(_) => Ok(()),
        Err(_) => {
            if is_short(text) {
                Err(TextFault::Cut(1))
            } else {
                Err(TextFault::Line(1))
            }
        }
    }
}

/// Makes a tree of `value`. If `value` fits into no message, the fault is its misfit.
pub fn fitting<A: Allocator>(value: Value<A>) -> Result<Tree<A>, TextFault>
    ensures found { IfOk result (λ t. t ≡ tree_of value) }
    ensures fits { IfOk result (λ t. Fits t) }
    ensures misfit { IfErr result (λ e. (m : Misfit) × (e ≡ faults.Misfit m) × (misfit (tree_of value) ≡ Some m)) }
{
    match Tree::new(value) {
        Ok(tree) => Ok(tree),
        Err((value, flaw)) => {
            // One call of `drop` is quicker to prove than a drop of each field.
            drop(value);
            Err(TextFault::Misfit(flaw))
        }
    }
}
