//! Tests of the calls for canonical bytes, and of comparisons, that count their reads: each gives the result of the
//! call without a count, and counts within its bound.

use crate::counted_calls::doubling;
use crate::shared_lists::shared_lists;
use crate::tally::Tally;
use capn_canon::{
    Canonical, CanonicalLength, IntoRefusal, MessageRefusal, Refusal, SameRefusal, Side,
    canonical_into, canonical_into_counted, canonical_length, canonical_length_counted,
    canonical_of, canonical_of_counted, same_messages, same_messages_counted,
};
use capn_same::{AskedFirst, PairTask};
use capn_stream::first;
use capn_target::counted::{Asked, CountedSpace, CountedTask, CountedWriter, Reads};
use capn_walk::Limits;
use capn_words::Space;
use std::alloc::Global;
use std::sync::ledger::Ledger;
use std::test::Fail;

/// The task that makes canonical bytes. Its `most` is the bound of `canonical_of_counted`.
#[derive(Drop)]
struct BytesTask {
    alloc: Global,
    limits: Limits,
}

impl CountedTask for BytesTask {
    type Told = Result<Canonical, Refusal>;

    ghost use Rattle.std.specs.Prelude.{◌+◌, ◌*◌, ⊤};

    ghost tells = { λ t m r. ⊤ };

    ghost most = { λ t. 56 * (t.limits.budget + 1) };

    fn run<S: Space, L: Ledger>(
        self,
        space: &CountedSpace<'_, S, L>,
        reads: &mut Reads<L>,
    ) -> Result<Canonical, Refusal> {
        canonical_of_counted(self.alloc, space, self.limits, reads)
    }
}

/// The task that measures canonical bytes.
#[derive(Drop)]
struct LengthTask {
    limits: Limits,
}

impl CountedTask for LengthTask {
    type Told = Result<CanonicalLength, MessageRefusal>;

    ghost use Rattle.std.specs.Prelude.{◌+◌, ◌*◌, ⊤};

    ghost tells = { λ t m r. ⊤ };

    ghost most = { λ t. 34 * (t.limits.budget + 1) };

    fn run<S: Space, L: Ledger>(
        self,
        space: &CountedSpace<'_, S, L>,
        reads: &mut Reads<L>,
    ) -> Result<CanonicalLength, MessageRefusal> {
        canonical_length_counted(space, self.limits, reads)
    }
}

/// The task that writes canonical bytes into a buffer.
#[derive(Drop)]
struct IntoTask {
    limits: Limits,
}

impl CountedWriter for IntoTask {
    type Told = Result<CanonicalLength, IntoRefusal>;

    type Item = u8;

    ghost use Rattle.std.specs.Prelude.{◌+◌, ◌*◌, ⊤};

    ghost tells = { λ t m old new r. ⊤ };

    ghost most = { λ t. 54 * (t.limits.budget + 1) };

    fn run<S: Space, L: Ledger>(
        self,
        space: &CountedSpace<'_, S, L>,
        out: &mut [u8],
        reads: &mut Reads<L>,
    ) -> Result<CanonicalLength, IntoRefusal> {
        canonical_into_counted(space, self.limits, out, reads)
    }
}

/// The task that compares two messages.
#[derive(Drop)]
struct SameTask {
    limits: Limits,
}

impl PairTask for SameTask {
    type Told = Result<bool, SameRefusal>;

    ghost use Rattle.std.specs.Prelude.{◌+◌, ◌*◌, ⊤};

    ghost tells = { λ t m n r. ⊤ };

    ghost most = { λ t. 34 * (t.limits.budget + 1) };

    fn run<S: Space, T: Space, L: Ledger, M: Ledger>(
        self,
        a: &CountedSpace<'_, S, L>,
        b: &CountedSpace<'_, T, M>,
        first: &mut Reads<L>,
        second: &mut Reads<M>,
    ) -> Result<bool, SameRefusal> {
        same_messages_counted(a, b, self.limits, first, second)
    }
}

/// Tests whether a call read a message at most `each` times for each of `paid + 1` words. One more read begins the
/// count.
fn is_within(reads: u64, each: u64, paid: u32) -> bool {
    reads <= each.wrapping_mul(paid as u64 + 1).wrapping_add(1)
}

/// Tests whether `canonical_of_counted` has the result of `canonical_of`, and its count is within its bound.
fn is_laid<S: Space>(alloc: Global, space: &Tally<'_, S>, limits: Limits) -> bool {
    let _before = space.taken();
    let told = space.ask(BytesTask { alloc, limits });
    let reads = space.taken();
    let paid = match &told {
        Ok(canonical) => canonical.paid,
        Err(_) => limits.budget(),
    };
    let is_same = told == canonical_of(alloc, space, limits);
    is_same && is_within(reads, 56, paid)
}

/// Tests whether `canonical_length_counted` has the result of `canonical_length`, and its count is within its bound.
fn is_long<S: Space>(space: &Tally<'_, S>, limits: Limits) -> bool {
    let _before = space.taken();
    let told = space.ask(LengthTask { limits });
    let reads = space.taken();
    let paid = match told {
        Ok(length) => length.paid,
        Err(_) => limits.budget(),
    };
    told == canonical_length(space, limits) && is_within(reads, 34, paid)
}

/// Tests whether `canonical_into_counted` has the result of `canonical_into` and writes the same into a buffer of
/// `room` bytes, and its count is within its bound.
fn is_written<S: Space>(space: &Tally<'_, S>, limits: Limits, room: usize) -> bool {
    let mut out = [7u8; 240];
    let mut other = out;
    let room = room.min(240);
    let _before = space.taken();
    let told = space.ask_into(IntoTask { limits }, &mut out[..room]);
    let reads = space.taken();
    let paid = match told {
        Ok(length) => length.paid,
        Err(_) => limits.budget(),
    };
    let want = canonical_into(space, limits, &mut other[..room]);
    told == want && out == other && is_within(reads, 54, paid)
}

/// Tests the three calls over the frame `bytes` within `budget`. The buffer is empty, or has just enough room for the
/// smallest of the messages, or for each of them.
fn is_right(alloc: Global, bytes: &[u8], budget: u32) -> Result<bool, Fail> {
    let Ok((message, _taken)) = first(alloc, bytes, 8_388_608) else {
        return Err(Fail::new("no frame"));
    };
    let limits = Limits::new(8_388_608, budget, 63).unwrap_or(Limits::usual());
    let space = Tally::of(&message);
    let mut is_right = is_laid(alloc, &space, limits) && is_long(&space, limits);
    for room in [0, 120, 240usize] {
        is_right = is_right && is_written(&space, limits, room);
    }
    Ok(is_right)
}

/// The value of the message of two levels has 7 structs, whose canonical bytes are 15 words. The second message is
/// refused for its budget, the third has no root, and in the last each visit takes many reads.
#[test]
fn each_call_gives_the_result_without_a_count(rt: HostRuntime) -> Result<(), Fail> {
    let few = doubling(rt.alloc(), 2)?;
    let many = doubling(rt.alloc(), 11)?;
    let lists = shared_lists(rt.alloc())?;
    assert!(rt; is_right(rt.alloc(), few.as_slice(), 1_000)?);
    assert!(rt; is_right(rt.alloc(), many.as_slice(), 7)?);
    assert!(rt; is_right(rt.alloc(), &[0; 8], 7)?);
    assert!(rt; is_right(rt.alloc(), lists.as_slice(), 1_000)?);
    Ok(())
}

/// Compares the frames `one` and `other` within `budget`. Returns the result of `same_messages_counted`, which must be
/// that of `same_messages`, and how often each message was read.
fn compared(
    alloc: Global,
    one: &[u8],
    other: &[u8],
    budget: u32,
) -> Result<(Result<bool, SameRefusal>, u64, u64), Fail> {
    let Ok((a, _taken)) = first(alloc, one, 8_388_608) else {
        return Err(Fail::new("no frame"));
    };
    let Ok((b, _taken)) = first(alloc, other, 8_388_608) else {
        return Err(Fail::new("no frame"));
    };
    let limits = Limits::new(8_388_608, budget, 63).unwrap_or(Limits::usual());
    let (a, b) = (Tally::of(&a), Tally::of(&b));
    let told = (&a).ask_pair(&b, SameTask { limits });
    let (reads, beside) = (a.taken(), b.taken());
    if told != same_messages(&a, &b, limits) {
        return Err(Fail::new("another result"));
    }
    Ok((told, reads, beside))
}

/// A message is the same as itself, and not the same as another. The walk of `few` pays three words for each of its
/// seven structs, and that of the lists at most 19.
#[test]
fn each_comparison_counts_both_messages(rt: HostRuntime) -> Result<(), Fail> {
    let few = doubling(rt.alloc(), 2)?;
    let lists = shared_lists(rt.alloc())?;
    let (told, reads, beside) = compared(rt.alloc(), few.as_slice(), few.as_slice(), 1_000)?;
    assert!(rt; told == Ok(true) && is_within(reads, 34, 21) && is_within(beside, 34, 21));
    let (told, reads, beside) = compared(rt.alloc(), few.as_slice(), lists.as_slice(), 1_000)?;
    assert!(rt; told == Ok(false) && is_within(reads, 34, 21) && is_within(beside, 34, 19));
    Ok(())
}

/// If the first message is refused, the second is not read, except for the read that begins its count.
#[test]
fn a_refused_message_is_not_compared(rt: HostRuntime) -> Result<(), Fail> {
    let few = doubling(rt.alloc(), 2)?;
    let many = doubling(rt.alloc(), 11)?;
    let (told, reads, beside) = compared(rt.alloc(), many.as_slice(), few.as_slice(), 24)?;
    assert!(rt; told.is_err_and(|refusal| refusal.side == Side::First));
    assert!(rt; is_within(reads, 34, 24) && beside <= 1);
    let (told, reads, beside) = compared(rt.alloc(), few.as_slice(), many.as_slice(), 24)?;
    assert!(rt; told.is_err_and(|refusal| refusal.side == Side::Second));
    assert!(rt; is_within(reads, 34, 24) && is_within(beside, 34, 24));
    Ok(())
}
