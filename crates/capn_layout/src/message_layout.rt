//! The canonical layout of a message's value, read in place. Any change here that alters canonical bytes makes a new
//! version of the canonical form.

ghost use Rattle.std.specs.Prelude.{◌≡◌, ℕ, ◌+◌, ◌*◌, ◌<◌, ◌≤◌, ◌++◌, length, drop, IfOk};
ghost use Rattle.capn_value.specs.Tree.{Tree as Value};
ghost use Rattle.capn_value.specs.Cost.{cost};
ghost use Rattle.capn_walk.specs.Accepted.{root};
ghost use Rattle.capn_walk.specs.ValueAt.{IsAt};
ghost use Rattle.capn_layout.specs.Layout.{canon};
ghost use Rattle.capn_layout.specs.MessageSlots.{HasSlot};
ghost use Rattle.capn_layout.specs.Ready.{IsReady};

use crate::message_slots::MessageSlots;
use crate::object_layout::lay_root;
use crate::object_size::size_of_slot;
use crate::zero_bytes::zeros;
use capn_target::counted::{CountedSpace, Reads, count_reads};
use capn_value::Memory;
use capn_words::{Place, Space};
use std::alloc::Allocator;
use std::marker::Brand;
use std::sync::ledger::{Blank, Ledger};

/// Returns the number of words in the canonical bytes of the value at the root of `space`. The message was surveyed:
/// the value is at most `depth` objects deep and has no capability.
///
/// The message is read in the sequence of the layout, and no memory is allocated. (Page: canonicalization.)
pub fn surveyed_length<S: Space>(space: &S, depth: u32) -> u32
    requires { IsReady (HasSlot (S.message space.now)) 0 0 depth 1 }
    ensures { (v : Value) → IsAt (S.message space.now) root v → 8 * result ≡ length (canon v) }
{
    length_with_ledger::<S, Brand>(space, depth, Blank::new(1))
}

/// Returns the result of [`surveyed_length`], and counts reads in the new ledger `blank`.
fn length_with_ledger<S: Space, L: Ledger>(space: &S, depth: u32, blank: Blank) -> u32
    requires name { blank.name ≡ L.name }
    requires parts { blank.parts ≡ L.parts }
    requires one { 0 < blank.parts }
    requires ready { IsReady (HasSlot (S.message space.now)) 0 0 depth 1 }
    ensures { (v : Value) → IsAt (S.message space.now) root v → 8 * result ≡ length (canon v) }
{
    let (space, mut reads) = count_reads::<S, L>(space, blank);
    surveyed_length_counted(&space, depth, &mut reads)
}

/// Returns the number of words in the canonical bytes of the value at the root of `space`, and counts reads and loop
/// turns in `reads`. The value is at most `depth` objects deep and has no capability.
///
/// The count grows by at most twenty for each word that the value costs, under either tariff, plus eleven. A walk pays
/// at least that cost. No memory is allocated.
pub fn surveyed_length_counted<S: Space, L: Ledger>(
    space: &CountedSpace<'_, S, L>,
    depth: u32,
    reads: &mut Reads<L>,
) -> u32
    requires { IsReady (HasSlot space.now) 0 0 depth 1 }
    ensures length { (v : Value) → IsAt space.now root v → 8 * result ≡ length (canon v) }
    // The count of reads and loop turns grows by at most twenty for each word of the cost, plus eleven.
    ensures reads { (v : Value) → IsAt space.now root v → (base : ℕ)
        → reads.new ≤ reads.old + 20 * cost base v + 11 }
{
    let source = MessageSlots {
        space: space.again(),
        start: Place::ROOT,
    };
    1 + size_of_slot(&source, 0, depth, reads)
}

/// Writes the canonical bytes of the value at the root of `space` to the beginning of `out`, and returns the number of
/// bytes written. The other bytes of `out` stay as they were. The message was surveyed: the value is at most `depth`
/// objects deep and has no capability.
///
/// The message is read in place, and nothing is tested again. Reads and loop turns are counted in `reads`, with the
/// bound of [`surveyed_length_counted`]. No memory is allocated. (Page: canonicalization.)
pub fn surveyed_layout_into_counted<S: Space, L: Ledger>(
    space: &CountedSpace<'_, S, L>,
    depth: u32,
    out: &mut [u8],
    reads: &mut Reads<L>,
) -> usize
    requires ready { IsReady (HasSlot space.now) 0 0 depth 1 }
    requires fits { (v : Value) → IsAt space.now root v → length (canon v) ≤ length out.old }
    ensures written { (v : Value) → IsAt space.now root v
        → (result ≡ length (canon v)) × (out.new ≡ canon v ++ drop (length (canon v)) out.old) }
    // The count of reads and loop turns grows by at most twenty for each word of the cost, plus eleven.
    ensures reads { (v : Value) → IsAt space.now root v → (base : ℕ)
        → reads.new ≤ reads.old + 20 * cost base v + 11 }
{
    let source = MessageSlots {
        space: space.again(),
        start: Place::ROOT,
    };
    let most = out.len().min(4_294_967_296);
    let words = lay_root(&source, depth, &mut out[..most], reads);
    8 * words
}

/// Returns a number of bytes that is enough for the canonical bytes of the value at the root of `space`. If `paid + 1`
/// is at most twice the number of words in the first `paid` segments, the result is the size of `paid + 1` words.
/// Otherwise the result is exactly the number of canonical bytes.
fn room_for<S: Space, L: Ledger>(
    space: &CountedSpace<'_, S, L>,
    depth: u32,
    paid: u32,
    reads: &mut Reads<L>,
) -> usize
    requires ready { IsReady (HasSlot space.now) 0 0 depth 1 }
    requires paid { (v : Value) → IsAt space.now root v → length (canon v) ≤ 8 * (paid + 1) }
    ensures room { (v : Value) → IsAt space.now root v → length (canon v) ≤ result }
    ensures reads { (v : Value) → IsAt space.now root v → (base : ℕ)
        → reads.new ≤ reads.old + 2 * paid + 20 * cost base v + 12 }
{
    let mut words = 0u32;
    for segment in 0..space.segments(reads).min(paid) {
        reads.tick();
        words = words.saturating_add(space.words(segment, reads).unwrap_or(0));
    }
    if paid / 2 < words {
        return 8 * (paid as usize + 1);
    }
    8 * surveyed_length_counted(space, depth, reads) as usize
}

/// Returns the canonical bytes of the value at the root of `space`. The message was surveyed: the value is at most
/// `depth` objects deep and has no capability, and `paid` is the number of words that the walk pays.
///
/// The message is read in place, and nothing is tested again. The memory is allocated on `alloc` at once: `paid + 1`
/// words, if `paid + 1` is at most twice the number of words in the first `paid` segments. Otherwise the bytes are
/// counted first. `Memory` is returned only if the allocation was refused. (Page: canonicalization.)
pub fn surveyed_layout<S: Space, A: Allocator>(
    alloc: A,
    space: &S,
    depth: u32,
    paid: u32,
) -> Result<Vec<u8, A>, Memory>
    requires ready { IsReady (HasSlot (S.message space.now)) 0 0 depth 1 }
    requires paid { (v : Value) → IsAt (S.message space.now) root v → length (canon v) ≤ 8 * (paid + 1) }
    ensures { IfOk result (λ bytes. (v : Value) → IsAt (S.message space.now) root v → bytes.items ≡ canon v) }
{
    layout_with_ledger::<S, A, Brand>(alloc, space, depth, paid, Blank::new(1))
}

/// Returns the result of [`surveyed_layout`], and counts reads in the new ledger `blank`.
fn layout_with_ledger<S: Space, A: Allocator, L: Ledger>(
    alloc: A,
    space: &S,
    depth: u32,
    paid: u32,
    blank: Blank,
) -> Result<Vec<u8, A>, Memory>
    requires name { blank.name ≡ L.name }
    requires parts { blank.parts ≡ L.parts }
    requires one { 0 < blank.parts }
    requires ready { IsReady (HasSlot (S.message space.now)) 0 0 depth 1 }
    requires paid { (v : Value) → IsAt (S.message space.now) root v → length (canon v) ≤ 8 * (paid + 1) }
    ensures { IfOk result (λ bytes. (v : Value) → IsAt (S.message space.now) root v → bytes.items ≡ canon v) }
{
    let (space, mut reads) = count_reads::<S, L>(space, blank);
    surveyed_layout_counted(alloc, &space, depth, paid, &mut reads)
}

/// Returns the canonical bytes of the value at the root of `space`, and counts reads and loop turns in `reads`. The
/// value is at most `depth` objects deep and has no capability, and `paid` is the number of words that the walk pays.
/// Memory is allocated as by [`surveyed_layout`].
///
/// The count grows by at most two for each of the `paid` words, plus forty for each word that the value costs, plus 23.
pub fn surveyed_layout_counted<S: Space, A: Allocator, L: Ledger>(
    alloc: A,
    space: &CountedSpace<'_, S, L>,
    depth: u32,
    paid: u32,
    reads: &mut Reads<L>,
) -> Result<Vec<u8, A>, Memory>
    requires ready { IsReady (HasSlot space.now) 0 0 depth 1 }
    requires paid { (v : Value) → IsAt space.now root v → length (canon v) ≤ 8 * (paid + 1) }
    ensures laid { IfOk result (λ bytes. (v : Value) → IsAt space.now root v → bytes.items ≡ canon v) }
    // For any result, the count of reads and loop turns grows by at most two for each word paid, plus forty for each
    // word of the cost, plus 23.
    ensures reads { (v : Value) → IsAt space.now root v → (base : ℕ)
        → reads.new ≤ reads.old + 2 * paid + 40 * cost base v + 23 }
{
    let room = room_for(space, depth, paid, reads);
    let mut bytes = zeros(alloc, room)?;
    let size = surveyed_layout_into_counted(space, depth, bytes.as_mut_slice(), reads);
    bytes.truncate(size);
    Ok(bytes)
}
