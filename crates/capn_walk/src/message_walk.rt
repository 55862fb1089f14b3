//! The walk over a message from the root, and the test of the root pointer for walks, surveys and indexes.

ghost use Rattle.std.specs.Prelude.{◌+◌, ◌*◌, ◌≡◌, ◌≢◌, ◌⊎◌, ◌<◌, ◌≤◌, Ok};
ghost use Rattle.std.specs.Prelude.{length, true, IfOk, IfErr, OnOk, MatchResult};
ghost use Rattle.capn_words.specs.Message.{segment_at};
ghost use Rattle.capn_value.specs.Tree as trees;
ghost use Rattle.capn_value.specs.Cost.{base, cost, height};
ghost use Rattle.capn_target.specs.Target as spec;
ghost use Rattle.capn_walk.specs.Accepted.{root, IsValueOf, IsWalkRefused, IsBounded, paid, number_of_visits};
ghost use Rattle.capn_walk.specs.Accepted as accepted;
ghost use Rattle.capn_walk.specs.Limits.{Bounds};
ghost use Rattle.capn_walk.specs.View.{IsEntered, stepped_to_root};
ghost use Rattle.capn_target.specs.declared.target.Fault.TheVariants.{Memory};

use crate::limits::Limits;
use crate::walk_answer::{Stopped, Walked, stop};
use crate::walk_visits::walk_target;
use capn_target::counted::{Asked, CountedSpace, CountedTask, Reads};
use capn_target::{Fault, Shape, Target, counted};
use capn_value::Tree;
use capn_words::{Place, Space};
use std::alloc::Allocator;
use std::sync::ledger::Ledger;

/// A task that reads the value of a message within `limits`.
#[derive(Drop)]
struct WalkTask<A: Allocator + Copy> {
    alloc: A,
    limits: Limits,
}

impl<A: Allocator + Copy> CountedTask for WalkTask<A> {
    type Told = Result<Walked<A>, Stopped>;

    ghost use Rattle.std.specs.Prelude.{◌+◌, ◌*◌};
    ghost use Rattle.capn_walk.specs.inner.Told.{IsWalkTold};

    ghost tells = { λ t m r. IsWalkTold m t.limits r (λ w. w.tree) (λ w. w.paid) (λ w. w.visits) };

    ghost most = { λ t. 12 * (t.limits.budget + 1) };

    fn run<S: Space, L: Ledger>(
        self,
        space: &CountedSpace<'_, S, L>,
        reads: &mut Reads<L>,
    ) -> Result<Walked<A>, Stopped> {
        walk_counted(self.alloc, space, self.limits, reads)
    }
}

/// Reads the value that the message `space` denotes, from the root, within `limits`. Returns the value, the number of
/// words paid, and the number of visits.
///
/// Slots are visited in preorder. A slot is visited each time that a pointer leads to the object with the slot. The
/// price of a visit is paid before any content except a list's tag is read, and before any is allocated. So even a
/// hostile message, with cycles or shared objects, costs at most the budget.
///
/// If segment 0 has no word, the error is `NoRoot` at 0:0, with `paid` 0 and `visits` 0. Any other error except
/// `Memory` comes from the first visit that meets a fault or brings the sum of the prices above the budget. The error
/// has the place of the visited slot, the number of words paid before the visit, and the number of visits, including
/// this visit. At one visit the faults of `resolve` come first, then `RootKind`, `TooDeep` and `OverBudget`. `Memory`
/// is returned only if an allocation was refused, in place of any later result. With the fault `Memory`, `paid` is at
/// most the budget, and `visits` is at most `paid + 1`.
///
/// Memory: the tree, on `alloc`. The stack holds at most as many objects as the depth limit. (Page: security
/// considerations; the tariffs and the order of the faults are our own.)
pub fn walk<M: Asked, A: Allocator + Copy>(
    alloc: A,
    space: M,
    limits: Limits,
) -> Result<Walked<A>, Stopped>
    // The message has to allow 12 * (budget + 1) reads and turns of the loops, and one more read that starts the
    // count. No more can occur. A reference to a `Space` allows any number.
    requires work { M.allows space (12 * (limits.budget + 1) + 1) }

    // If `result` is `Ok`, the message is accepted. Then `result` has the value at the root, the sum of the prices, and
    // the number of visits.
    ensures found { IfOk result (λ w. IsValueOf (M.message space) limits w.tree) }
    ensures pays { IfOk result (λ w. w.paid ≡ paid (M.message space) limits) }
    ensures counts { IfOk result (λ w. w.visits ≡ number_of_visits (M.message space) limits) }

    // If the message has a value within the limits, that value is returned, unless an allocation was refused. Any error
    // other than `Memory` is the stop of the walk.
    ensures only { (v : trees.Tree) → IsValueOf (M.message space) limits v →
        MatchResult result (λ w. w.tree ≡ v) (λ s. s.fault ≡ Memory) }
    ensures refused { IfErr result (λ s.
        (s.fault ≡ Memory)
        ⊎ IsWalkRefused (M.message space) limits s.fault s.place s.paid s.visits) }

    // `Memory` is returned only if the root leads to content whose price is within the budget.
    ensures memory { IfErr result (λ s. s.fault ≡ Memory →
        IsEntered (stepped_to_root (M.message space) (base limits.tariff) limits.depth limits.budget)) }

    // No more than the budget is paid, and the number of visits is at most the number of words paid, plus one.
    ensures bounded { MatchResult result (λ w. IsBounded limits.budget w.paid w.visits)
        (λ s. IsBounded limits.budget s.paid s.visits) }

    // The tree costs at most the number of words paid, and is at most as high as the depth limit.
    ensures thrifty { IfOk result (λ w. cost (base limits.tariff) w.tree ≤ w.paid) }
    ensures low { IfOk result (λ w. height w.tree ≤ limits.depth) }
{
    space.ask(WalkTask { alloc, limits })
}

/// Reads the value that the message `space` denotes within `limits`, and counts reads and loop turns in `reads`. The
/// results are those of [`walk`]. A read of bytes counts one for each word of those bytes. The counted loops are the
/// loops over slots and over rows.
///
/// The count grows by at most ten for each visit, including a refused visit, plus two for each word paid, plus one in
/// all. So the budget bounds the work for any message. Memory: the tree, on `alloc`.
pub fn walk_counted<S: Space, A: Allocator + Copy, L: Ledger>(
    alloc: A,
    space: &CountedSpace<'_, S, L>,
    limits: Limits,
    reads: &mut Reads<L>,
) -> Result<Walked<A>, Stopped>
    // If `result` is `Ok`, the message is accepted. Then `result` has the value at the root, the sum of the prices, and
    // the number of visits.
    ensures found { IfOk result (λ w. IsValueOf space.now limits w.tree) }
    ensures pays { IfOk result (λ w. w.paid ≡ paid space.now limits) }
    ensures counts { IfOk result (λ w. w.visits ≡ number_of_visits space.now limits) }

    // If the message has a value within the limits, that value is returned, unless an allocation was refused. Any error
    // other than `Memory` is the stop of the walk.
    ensures only { (v : trees.Tree) → IsValueOf space.now limits v →
        MatchResult result (λ w. w.tree ≡ v) (λ s. s.fault ≡ Memory) }
    ensures refused { IfErr result (λ s.
        (s.fault ≡ Memory)
        ⊎ IsWalkRefused space.now limits s.fault s.place s.paid s.visits) }

    // `Memory` is returned only if the root leads to content whose price is within the budget.
    ensures memory { IfErr result (λ s. s.fault ≡ Memory →
        IsEntered (stepped_to_root space.now (base limits.tariff) limits.depth limits.budget)) }

    // No more than the budget is paid, and the number of visits is at most the number of words paid, plus one.
    ensures bounded { MatchResult result (λ w. IsBounded limits.budget w.paid w.visits)
        (λ s. IsBounded limits.budget s.paid s.visits) }

    // The tree costs at most the number of words paid, and is at most as high as the depth limit.
    ensures thrifty { IfOk result (λ w. cost (base limits.tariff) w.tree ≤ w.paid) }
    ensures low { IfOk result (λ w. height w.tree ≤ limits.depth) }

    // The count of reads and turns grows by at most ten for each visit, plus two for each word paid, plus one in all.
    ensures reads { MatchResult result (λ w. reads.new ≤ reads.old + 10 * w.visits + 2 * w.paid + 1)
        (λ s. reads.new ≤ reads.old + 10 * s.visits + 2 * s.paid + 1) }
    // The budget bounds the count, for any message and any result.
    ensures work { reads.new ≤ reads.old + 12 * (limits.budget + 1) }
{
    space.bounds();
    let target = root_target(space, reads)?;
    let found = walk_target(
        alloc,
        space,
        Place::ROOT,
        target,
        limits.depth(),
        limits.budget(),
        limits.tariff().base(),
        reads,
    )?;
    Ok(Walked {
        tree: Tree::of_fit(found.value),
        paid: found.paid,
        visits: found.visits,
    })
}

/// Finds the target of the root pointer of the message `space`, or the first fault. The fault is `NoRoot` if segment 0
/// has no word, and `RootKind` if the target is a capability. Reads are counted in `reads`.
#[inline(always)]
pub fn root_target<S: Space, L: Ledger>(
    space: &CountedSpace<'_, S, L>,
    reads: &mut Reads<L>,
) -> Result<Target, Stopped>
    ensures place { OnOk result (0 < length (segment_at space.now 0)) }
    ensures target { IfOk result (λ t. spec.target space.now root ≡ Ok t) }
    ensures kind { IfOk result (λ t. accepted.may_be_root t ≡ true) }
    ensures refused { IfErr result (λ s.
        (limits : Bounds) →
        IsWalkRefused space.now limits s.fault s.place s.paid s.visits) }
    ensures no_memory { IfErr result (λ s. s.fault ≢ Memory) }
    ensures bounded { IfErr result (λ s. IsBounded 0 s.paid s.visits) }
    ensures reads { OnOk result (reads.new ≤ reads.old + 9) }
    ensures few { IfErr result (λ s. reads.new ≤ reads.old + 8 * s.visits + 1) }
{
    if counted::segment_length(space, Place::ROOT.segment, reads) == 0 {
        return Err(Stopped {
            visits: 0,
            ..stop(Fault::NoRoot, Place::ROOT)
        });
    }
    match counted::resolve(space, Place::ROOT, reads) {
        Ok(target) => {
            if may_be_root(target) {
                Ok(target)
            } else {
                Err(stop(Fault::RootKind, Place::ROOT))
            }
        }
        Err(fault) => Err(stop(fault, Place::ROOT)),
    }
}

/// Tests whether `target` may be the target of the root pointer. A capability may not.
pub fn may_be_root(target: Target) -> bool
    ensures { result ≡ accepted.may_be_root target }
{
    !matches!(target, Target::Cap(_))
}
