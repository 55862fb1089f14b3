//! The index of a message: an entry for each visit of a slot, in preorder.

ghost use Rattle.std.specs.Prelude.{◌≡◌, ◌⊎◌, ◌<◌, ◌≤◌, ◌+◌, ◌-◌, ◌*◌, length, drop};
ghost use Rattle.std.specs.Prelude.{IfOk, IfErr, IsOk, OnOk, MatchResult};
ghost use Rattle.capn_walk.specs.Index.{index_of, IsIndexed, IsIndexedAs};
ghost use Rattle.capn_walk.specs.Accepted.{IsAccepted, IsValueOf, IsWalkRefused, IsBounded, paid};
ghost use Rattle.capn_value.specs.Tree.{Tree};
ghost use Rattle.capn_target.specs.declared.target.Fault.TheVariants.{Memory};

use crate::entry::{Entry, Index, Indexed};
use crate::entry_form::{EntryForm, Plain};
use crate::index_visits::index_found;
use crate::limits::Limits;
use crate::message_survey::survey_counted;
use crate::message_walk::root_target;
use crate::walk_answer::{Stopped, out_of_memory};
use capn_target::counted::{
    Asked, CountedSpace, CountedTask, CountedWriter, Reads, segment_length,
};
use capn_target::{Fault, Target};
use capn_words::{Place, Space};
use std::alloc::Allocator;
use std::sync::ledger::Ledger;

/// A task that writes the index of a message within `limits`, each entry in `form`.
#[derive(Drop)]
struct IndexTask<'f, F: EntryForm> {
    limits: Limits,
    form: &'f F,
}

impl<'f, F: EntryForm> CountedWriter for IndexTask<'f, F> {
    type Told = Result<Indexed, Stopped>;

    type Item = F::Item;

    ghost use Rattle.std.specs.Prelude.{◌+◌, ◌*◌};
    ghost use Rattle.capn_walk.specs.inner.Told.{IsIndexTold};

    ghost tells = { λ t m old new r. IsIndexTold (F.written t.form.now) m t.limits old new r };

    ghost most = { λ t. 13 * (t.limits.budget + 1) + 1 };

    fn run<S: Space, L: Ledger>(
        self,
        space: &CountedSpace<'_, S, L>,
        out: &mut [F::Item],
        reads: &mut Reads<L>,
    ) -> Result<Indexed, Stopped> {
        index_into_counted(space, self.limits, self.form, out, reads)
    }
}

/// Writes the index of the message `space` to `room`, if the message is accepted within `limits`. Returns the number of
/// visits and the number of words that the walk pays.
///
/// If `room` is too small for all entries, the first entries are written, and the message is still accepted. If `room`
/// is larger, the items after the entries stay as they were. There is an entry for each visit, so a `room` of
/// `budget + 1` items is always enough. If `room` is empty, the entries are only counted.
///
/// The visits are made in the order of [`survey`](crate::survey), with the same errors. If the result is an error, only
/// the items for the visits before the refused visit may have changed.
///
/// Memory: only the stack, with one frame for each object on the path from the root, so at most as many frames as the
/// depth limit.
pub fn index_into<M: Asked>(
    space: M,
    limits: Limits,
    room: &mut [Entry],
) -> Result<Indexed, Stopped>
    // The message has to allow 13 * (budget + 1) + 1 reads and turns of the loop, and one more read that starts the
    // count. No more can occur. A reference to a `Space` allows any number.
    requires work { M.allows space (13 * (limits.budget + 1) + 1 + 1) }
    // If `result` is `Ok`, the message is accepted, and `room` has as much of the message's index as fits.
    ensures found { IfOk result (λ t. IsIndexed (M.message space) limits room.old room.new t) }
    // An accepted message gives `Ok`. Any error is the stop of the walk.
    ensures only { IsAccepted (M.message space) limits → IsOk result }
    ensures refused { IfErr result (λ s. IsWalkRefused (M.message space) limits s.fault s.place s.paid s.visits) }
    // If `result` is an error, `room` is unchanged, except for the entries of the visits before the refused visit.
    ensures kept { IfErr result (λ s. drop (s.visits - 1) room.new ≡ drop (s.visits - 1) room.old) }
    // No more than the budget is paid, and the number of visits is at most the number of words paid, plus one.
    ensures bounded { MatchResult result (λ t. IsBounded limits.budget t.paid t.visits)
        (λ s. IsBounded limits.budget s.paid s.visits) }
{
    space.ask_into(
        IndexTask {
            limits,
            form: &Plain,
        },
        room,
    )
}

/// Writes the index of the message `space` to `room`, each entry in `form`.
///
/// Results, prices and the bound on the reads are those of [`index_into`]. No memory is allocated.
pub fn index_into_form<M: Asked, F: EntryForm>(
    space: M,
    limits: Limits,
    form: &F,
    room: &mut [F::Item],
) -> Result<Indexed, Stopped>
    // The message has to allow 13 * (budget + 1) + 1 reads and turns of the loop, and one more read that starts the
    // count. No more can occur. A reference to a `Space` allows any number.
    requires work { M.allows space (13 * (limits.budget + 1) + 1 + 1) }
    // If `result` is `Ok`, the message is accepted, and `room` has as much of the message's index in `form` as fits.
    ensures found { IfOk result (λ t.
        IsIndexedAs (F.written form.now) (M.message space) limits room.old room.new t) }
    // An accepted message gives `Ok`. Any error is the stop of the walk.
    ensures only { IsAccepted (M.message space) limits → IsOk result }
    ensures refused { IfErr result (λ s. IsWalkRefused (M.message space) limits s.fault s.place s.paid s.visits) }
    // If `result` is an error, `room` is unchanged, except for the entries of the visits before the refused visit.
    ensures kept { IfErr result (λ s. drop (s.visits - 1) room.new ≡ drop (s.visits - 1) room.old) }
    // No more than the budget is paid, and the number of visits is at most the number of words paid, plus one.
    ensures bounded { MatchResult result (λ t. IsBounded limits.budget t.paid t.visits)
        (λ s. IsBounded limits.budget s.paid s.visits) }
{
    space.ask_into(IndexTask { limits, form }, room)
}

/// Writes the index of the message `space` to `room`, each entry in `form`, and counts reads and loop turns in `reads`.
/// The results are those of [`index_into_form`].
///
/// The count grows by at most thirteen for each visit, including a refused visit, plus one in all. So the budget bounds
/// the work for any message. No memory is allocated.
pub fn index_into_counted<S: Space, L: Ledger, F: EntryForm>(
    space: &CountedSpace<'_, S, L>,
    limits: Limits,
    form: &F,
    room: &mut [F::Item],
    reads: &mut Reads<L>,
) -> Result<Indexed, Stopped>
    // If `result` is `Ok`, the message is accepted, and `room` has as much of the message's index in `form` as fits.
    ensures found { IfOk result (λ t. IsIndexedAs (F.written form.now) space.now limits room.old room.new t) }
    // An accepted message gives `Ok`. Any error is the stop of the walk.
    ensures only { IsAccepted space.now limits → IsOk result }
    ensures refused { IfErr result (λ s. IsWalkRefused space.now limits s.fault s.place s.paid s.visits) }
    // If `result` is an error, `room` is unchanged, except for the entries of the visits before the refused visit.
    ensures kept { IfErr result (λ s. drop (s.visits - 1) room.new ≡ drop (s.visits - 1) room.old) }
    // No more than the budget is paid, and the number of visits is at most the number of words paid, plus one.
    ensures bounded { MatchResult result (λ t. IsBounded limits.budget t.paid t.visits)
        (λ s. IsBounded limits.budget s.paid s.visits) }
    // The count of reads and turns grows by at most thirteen for each visit, plus one in all.
    ensures reads { MatchResult result (λ t. reads.new ≤ reads.old + 13 * t.visits + 1)
        (λ s. reads.new ≤ reads.old + 13 * s.visits + 1) }
    // The budget bounds the count, for any message and any result.
    ensures work { reads.new ≤ reads.old + 13 * (limits.budget + 1) + 1 }
{
    space.bounds();
    let target = root_target(space, reads)?;
    let size = segment_length(space, Place::ROOT.segment, reads);
    let told = index_found(
        space,
        Place::ROOT,
        size,
        Ok(target),
        limits.depth(),
        limits.budget(),
        limits.tariff().base(),
        form,
        room,
        0,
        reads,
    )?;
    Ok(told)
}

/// Makes the index of the message `space`, and counts reads and loop turns in `reads`. The results are those of
/// [`index`].
fn index_counted<S: Space, A: Allocator + Copy, L: Ledger>(
    alloc: A,
    space: &CountedSpace<'_, S, L>,
    limits: Limits,
    reads: &mut Reads<L>,
) -> Result<Index<A>, Stopped>
    // If `result` is `Ok`, the message is accepted, and `result` has the entries and the number of words paid.
    ensures accepted { OnOk result (IsAccepted space.now limits) }
    ensures entries { IfOk result (λ x. x.entries.items ≡ index_of space.now limits) }
    ensures pays { IfOk result (λ x. x.paid ≡ paid space.now limits) }
    // An accepted message gives `Ok`, unless an allocation was refused. Any other error is the stop of the walk.
    ensures only { (v : Tree) → IsValueOf space.now limits v → IfErr result (λ s. s.fault ≡ Memory) }
    ensures refused { IfErr result (λ s.
        (s.fault ≡ Memory)
        ⊎ IsWalkRefused space.now limits s.fault s.place s.paid s.visits) }
    // Only the vector of entries is allocated, and only after the survey has accepted the message. So if the fault is
    // `Memory`, the message is accepted.
    ensures no_memory { IfErr result (λ s. s.fault ≡ Memory → IsAccepted space.now limits) }
    // No more than the budget is paid, and the number of visits is at most the number of words paid, plus one.
    ensures bounded { MatchResult result (λ x. IsBounded limits.budget x.paid (length x.entries.items))
        (λ s. IsBounded limits.budget s.paid s.visits) }
    // For each visit the survey adds at most fourteen reads and turns, and writing the entries adds at most thirteen.
    // Each of the two passes adds one more in all.
    ensures work { reads.new ≤ reads.old + 27 * (limits.budget + 1) + 2 }
{
    let told = survey_counted(space, limits, reads)?;
    let Ok(mut entries) = vec![in alloc; Entry::nil(); told.visits as usize] else {
        return Err(out_of_memory(Place::ROOT));
    };
    match index_into_counted(space, limits, &Plain, &mut entries, reads) {
        Ok(told) => Ok(Index {
            entries,
            paid: told.paid,
        }),
        Err(stopped) => Err(stopped),
    }
}

/// A task that makes the index of a message within `limits`, in a new vector on `alloc`.
#[derive(Drop)]
struct EntriesTask<A: Allocator + Copy> {
    alloc: A,
    limits: Limits,
}

impl<A: Allocator + Copy> CountedTask for EntriesTask<A> {
    type Told = Result<Index<A>, Stopped>;

    ghost use Rattle.std.specs.Prelude.{◌+◌, ◌*◌};
    ghost use Rattle.capn_walk.specs.inner.Told.{IsIndexMade};

    ghost tells = { λ t m r. IsIndexMade m t.limits r (λ x. x.entries.items) (λ x. x.paid) };

    ghost most = { λ t. 27 * (t.limits.budget + 1) + 2 };

    fn run<S: Space, L: Ledger>(
        self,
        space: &CountedSpace<'_, S, L>,
        reads: &mut Reads<L>,
    ) -> Result<Index<A>, Stopped> {
        index_counted(self.alloc, space, self.limits, reads)
    }
}

/// Makes the index of the message `space`, with the number of words that the walk pays, if the message is accepted
/// within `limits`.
///
/// The errors are those of [`survey`](crate::survey), and `Memory`. `Memory` is returned only if an allocation on
/// `alloc` was refused.
///
/// Memory: the entries, 24 bytes each, which are allocated once the message is accepted.
pub fn index<M: Asked, A: Allocator + Copy>(
    alloc: A,
    space: M,
    limits: Limits,
) -> Result<Index<A>, Stopped>
    // The message has to allow 27 * (budget + 1) + 2 reads and turns of the loops in both passes together, and one
    // more read that starts the count. No more can occur. A reference to a `Space` allows any number.
    requires work { M.allows space (27 * (limits.budget + 1) + 2 + 1) }
    // If `result` is `Ok`, the message is accepted, and `result` has the entries and the number of words paid.
    ensures accepted { OnOk result (IsAccepted (M.message space) limits) }
    ensures entries { IfOk result (λ x. x.entries.items ≡ index_of (M.message space) limits) }
    ensures pays { IfOk result (λ x. x.paid ≡ paid (M.message space) limits) }
    // An accepted message gives `Ok`, unless an allocation was refused. Any other error is the stop of the walk.
    ensures only { (v : Tree) → IsValueOf (M.message space) limits v → IfErr result (λ s. s.fault ≡ Memory) }
    ensures refused { IfErr result (λ s.
        (s.fault ≡ Memory)
        ⊎ IsWalkRefused (M.message space) limits s.fault s.place s.paid s.visits) }
    // Only the vector of entries is allocated, and only after the survey has accepted the message. So if the fault is
    // `Memory`, the message is accepted.
    ensures no_memory { IfErr result (λ s. s.fault ≡ Memory → IsAccepted (M.message space) limits) }
    // No more than the budget is paid, and the number of visits is at most the number of words paid, plus one.
    ensures bounded { MatchResult result (λ x. IsBounded limits.budget x.paid (length x.entries.items))
        (λ s. IsBounded limits.budget s.paid s.visits) }
{
    space.ask(EntriesTask { alloc, limits })
}
