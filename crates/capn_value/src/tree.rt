//! The type `Tree`, a value that fits into a message, and the calls on it.

ghost use Rattle.std.specs.Prelude.{◌≡◌, ◌↔◌, ◌≢◌, ◌+◌, ◌*◌, ◌≤◌, IfOk, IfErr, OnErr, IsOk, string_bytes};
ghost use Rattle.capn_value.specs.TreeOf.{tree_of};
ghost use Rattle.capn_value.specs.Cost as sizes;
ghost use Rattle.capn_value.specs.declared.tariff.Tariff.{Tariff};
ghost use Rattle.capn_value.specs.declared.tariff.Tariff.TheVariants.{Plain};
ghost use Rattle.capn_value.specs.Trim as cut;
ghost use Rattle.capn_value.specs.Fits.{Fits, misfit};
ghost use Rattle.capn_value.specs.Text as text;
ghost use Rattle.capn_value.specs.Same.{Same};
ghost use Rattle.capn_value.specs.InRange.{InRange};
ghost use Rattle.capn_value.specs.Tree as trees;

use crate::cost_and_height::{capped_cost, capped_height};
use crate::flaws::misfit;
use crate::misfit::Misfit;
use crate::tariff::Tariff;
use crate::text::show as show_value;
use crate::value::Value;
use crate::value_copy::{copy_value, trim_value};
use capn_words::Memory;
use std::alloc::{Allocator, Global};
use std::marker::Model;

/// A value that fits into a message: it has no [`Misfit`], and its numbers are in the range of their types.
#[derive(Debug, Drop)]
pub struct Tree<A: Allocator = Global> {
    value: Value<A>,
}

impl<A: Allocator> Model for Tree<A> {
    ghost use Rattle.capn_value.specs.Tree as trees;
    ghost use Rattle.capn_value.specs.TreeOf.{tree_of};
    ghost use Rattle.capn_value.specs.Code.{tree_code};

    ghost Value = { trees.Tree };

    ghost coded = { tree_code };

    ghost use Rattle.capn_value.specs.Fits.{Fits};
    ghost use Rattle.capn_value.specs.InRange.{InRange};

    ghost view = { λ t. tree_of t.value };

    ghost invariant = { λ t. Fits (tree_of t.value) × InRange (tree_of t.value) };
}

impl<A: Allocator> Tree<A> {
    /// Makes a tree of `value` if `value` fits, and else returns `value` unchanged and its first misfit. The misfit may
    /// lie in a value below `value`. Takes no memory, whatever the height of `value`.
    #[tactic(auto, unfolding(crate::specs::Fits::Fits))]
    pub fn new(value: Value<A>) -> Result<Tree<A>, (Value<A>, Misfit)>
        ensures ok { IfOk result (λ t. t ≡ tree_of value) }
        ensures err { IfErr result (λ e. (e.0 ≡ value) × (misfit (tree_of value) ≡ Some e.1)) }
        ensures fits { IsOk result ↔ Fits (tree_of value) }
        ensures in_range { IfOk result InRange }
    {
        match misfit(&value) {
            None => Ok(Tree { value }),
            Some(reason) => Err((value, reason)),
        }
    }

    /// Makes a tree of `value` without a test. The caller has to prove that `value` fits. Takes no memory.
    pub fn of_fit(value: Value<A>) -> Tree<A>
        requires fits { Fits (tree_of value) }
        requires in_range { InRange (tree_of value) }
        ensures { result ≡ tree_of value }
    {
        Tree { value }
    }

    /// Returns the value of the tree. Takes no memory.
    pub fn value(&self) -> &Value<A>
        ensures value { tree_of result.now ≡ self.now }
        ensures fits { Fits self.now }
        ensures in_range { InRange self.now }
    {
        &self.value
    }

    /// Returns the value of the tree, by move. Takes no memory.
    pub fn into_value(self) -> Value<A>
        ensures value { tree_of result ≡ self }
        ensures fits { Fits self }
        ensures in_range { InRange self }
    {
        let Tree { value } = self;
        value
    }
}

/// Returns the greatest depth of an object in `tree`, from 0 to 256. The root has depth 1. Null and capabilities have
/// no depth. (Page: security considerations. Our own: rows have the depth of their list.) Takes no memory.
#[tactic(auto, using(crate::proofs::shared::Fitting::fit_parts))]
pub fn height<A: Allocator>(tree: &Tree<A>) -> u32
    ensures exact { result ≡ sizes.height tree.now }
    ensures within { result ≤ sizes.most_height }
{
    capped_height(&tree.value)
}

/// Returns the cost of `tree` by `tariff`, in words, if each pointer is followed once. The cost is at most 2^28 by the
/// plain tariff, and at most 2^29 + 1 by the strict one. (Our own, after the page's security considerations.) Takes no
/// memory.
#[tactic(auto, using(crate::proofs::shared::Tariffs::affordable))]
pub fn cost<A: Allocator>(tree: &Tree<A>, tariff: Tariff) -> u32
    ensures exact { result ≡ sizes.cost (sizes.base tariff) tree.now }
    ensures within { result ≤ 2 * sizes.most_cost + 1 }
    ensures plain { tariff ≡ Plain → result ≤ sizes.most_cost }
{
    capped_cost(&tree.value, tariff.base() as usize) as u32
}

/// Copies `tree` without trailing zero words and trailing null slots of structs, at every level (encoding page:
/// "Canonicalization"). All rows of a list are shortened to one size. No list loses elements.
///
/// Returns `Memory` only if an allocation was refused. Takes only the memory of the result.
#[tactic(auto, using(crate::proofs::shared::StaysFit::fits))]
pub fn trim<A: Allocator + Copy, B: Allocator>(alloc: A, tree: &Tree<B>) -> Result<Tree<A>, Memory>
    ensures value { IfOk result (λ r. r ≡ cut.trimmed tree.now) }
    ensures same { IfOk result (λ r. (w : trees.Tree) → Fits w → Same tree.now w ↔ (r ≡ cut.trimmed w)) }
    ensures cheap { IfOk result (λ r. (by : Tariff)
        → sizes.cost (sizes.base by) r ≤ sizes.cost (sizes.base by) tree.now) }
    ensures low { IfOk result (λ r. sizes.height r ≤ sizes.height tree.now) }
    // A null tree takes no memory.
    ensures memory { OnErr result (tree.now ≢ trees.nil) }
{
    let value = trim_value(alloc, &tree.value)?;
    Ok(Tree { value })
}

/// Copies `tree` to memory of `alloc`.
///
/// Returns `Memory` only if an allocation was refused. Takes only the memory of the result.
pub fn copy<A: Allocator + Copy, B: Allocator>(alloc: A, tree: &Tree<B>) -> Result<Tree<A>, Memory>
    ensures exact { IfOk result (λ r. r ≡ tree.now) }
    // A null tree takes no memory.
    ensures memory { OnErr result (tree.now ≢ trees.nil) }
{
    let value = copy_value(alloc, &tree.value)?;
    Ok(Tree { value })
}

/// Returns the text of `tree`, untrimmed. Each value, row, data word, and number of 16, 32 or 64 bits has a line. All
/// bits or bytes of a list share one line. Lines are indented by two spaces for each level. (Our own.)
///
/// Returns `Memory` only if an allocation was refused. Takes the memory of one string.
#[tactic(auto, using(crate::proofs::shared::Fitting::fit_parts))]
pub fn show<A: Allocator, B: Allocator>(alloc: A, tree: &Tree<B>) -> Result<String<A>, Memory>
    ensures { IfOk result (λ t. string_bytes t ≡ text.show_text tree.now) }
{
    let mut out = String::new(alloc);
    show_value(&mut out, 0, &tree.value)?;
    Ok(out)
}
