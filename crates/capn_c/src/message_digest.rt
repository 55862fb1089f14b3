//! The digest of the canonical bytes of a message, in any form or in segments. A canonical message is hashed in place.

ghost use Rattle.std.specs.Prelude.{◌≡◌, ◌+◌, ◌*◌, ◌≤◌, ℕ, List, None, length, IfSome, IfOk, IfErr, IsErrOf};
ghost use Rattle.std.specs.Prelude.{MatchResult};
ghost use Rattle.sha2.specs.Sha256.{sha256};
ghost use Rattle.capn_words.specs.Message.{bytes as bytes_of, segment_at};
ghost use Rattle.capn_value.specs.Tree.{Tree as Value};
ghost use Rattle.capn_walk.specs.Accepted.{IsValueOf};
ghost use Rattle.capn_canon.specs.Denotes.{Answers, AnswersMessage};
ghost use Rattle.capn_canon.specs.Measure.{IsCanonicalOf};
ghost use Rattle.capn_canon.specs.MemoryNeed.{MayNeedBytes};
ghost use Rattle.capn_canon.specs.Refusal.{IsPaidWithin, IsRefused};
ghost use Rattle.capn_canon.specs.declared.refusal.Refusal.TheVariants as refusals;
ghost use Rattle.capn_stream.specs.Segments.{message_of};
ghost use Rattle.capn_c.specs.Held.{AnswersHeld, IsRefusedHeld};
ghost use Rattle.capn_c.specs.MadeBytes.{MayNeedToMake};
ghost use Rattle.capn_c.specs.inner.Told.{IsDigestTold, IsFoundTold, found_bytes, found_price};

use crate::held_message::run_held;
use capn_canon::{
    Canonical, Form, MessageTask, Refusal, canonical_of_counted, run_task, survey_canonical_counted,
};
use capn_target::counted::{Asked, CountedSpace, CountedTask, Reads};
use capn_walk::Limits;
use capn_words::{Place, Space};
use sha2::{Digest, Sha256};
use std::alloc::Global;
use std::sync::ledger::Ledger;

/// The digest of a message's canonical bytes, and the price of the message.
#[derive(Drop)]
pub struct Digested {
    /// The SHA-256 of the canonical bytes.
    pub digest: [u8; 32],
    /// The number of words that the walk pays.
    pub paid: u32,
}

/// Where the canonical bytes of a message are found.
#[derive(Drop)]
pub enum Found {
    /// The message is canonical, so the bytes are those of its only segment. The number is the price of the message.
    InPlace(u32),
    /// The message is not canonical, so the bytes were made.
    Made(Canonical),
}

/// Returns the price of the message `space` of one segment if the bytes of the segment are canonical, and otherwise
/// `None`.
#[inline(always)]
fn price_of_one<S: Space, L: Ledger>(
    space: &CountedSpace<'_, S, L>,
    limits: Limits,
    reads: &mut Reads<L>,
) -> Option<u32>
    requires one { length space.now ≡ 1 }
    ensures found { IfSome result (λ paid.
        AnswersMessage space.now limits (bytes_of (segment_at space.now 0)) paid) }
    ensures other { result ≡ None → (v : Value) → IsValueOf space.now limits v → IsCanonicalOf space.now v → ⊥ }
    ensures bounded { IfSome result (λ paid. paid ≤ limits.budget) }
    ensures reads { reads.new ≤ reads.old + 10 * limits.budget + 8 }
{
    match survey_canonical_counted(space, limits, reads) {
        Some(surveyed) => {
            if surveyed.is_canonical {
                Some(surveyed.paid)
            } else {
                None
            }
        }
        None => None,
    }
}

/// Returns the price of the message `space` if the message is canonical, and otherwise `None`.
#[inline(always)]
fn price_of_own<S: Space, L: Ledger>(
    space: &CountedSpace<'_, S, L>,
    limits: Limits,
    reads: &mut Reads<L>,
) -> Option<u32>
    ensures found { IfSome result (λ paid.
        AnswersMessage space.now limits (bytes_of (segment_at space.now 0)) paid) }
    ensures other { result ≡ None → (v : Value) → IsValueOf space.now limits v → IsCanonicalOf space.now v → ⊥ }
    ensures bounded { IfSome result (λ paid. paid ≤ limits.budget) }
    ensures reads { reads.new ≤ reads.old + 10 * limits.budget + 11 }
{
    match space.only_segment(reads) {
        Some(only) => price_of_one(&only.space(), limits, reads),
        None => None,
    }
}

/// Tests whether the message `space` is canonical, and otherwise makes its canonical bytes. Reads and turns of loops
/// are counted in `reads`.
#[inline(always)]
fn find_counted<S: Space, L: Ledger>(
    alloc: Global,
    space: &CountedSpace<'_, S, L>,
    limits: Limits,
    reads: &mut Reads<L>,
) -> Result<Found, Refusal>
    ensures told { IsFoundTold space.now limits result }
    ensures reads { reads.new ≤ reads.old + 67 * (limits.budget + 1) }
{
    let _budget = limits.budget();
    match price_of_own(space, limits, reads) {
        Some(paid) => Ok(Found::InPlace(paid)),
        None => {
            let canonical = canonical_of_counted(alloc, space, limits, reads)?;
            Ok(Found::Made(canonical))
        }
    }
}

/// The task of `find_bytes`: finds the canonical bytes of the message that it is run on.
#[derive(Drop)]
struct FindTask {
    alloc: Global,
    limits: Limits,
}

impl CountedTask for FindTask {
    type Told = Result<Found, Refusal>;

    ghost use Rattle.std.specs.Prelude.{◌+◌, ◌*◌};
    ghost use Rattle.capn_c.specs.inner.Told.{IsFoundTold};

    ghost tells = { λ t m r. IsFoundTold m t.limits r };

    ghost most = { λ t. 67 * (t.limits.budget + 1) };

    #[inline(always)]
    fn run<S: Space, L: Ledger>(
        self,
        space: &CountedSpace<'_, S, L>,
        reads: &mut Reads<L>,
    ) -> Result<Found, Refusal> {
        find_counted(self.alloc, space, self.limits, reads)
    }
}

/// Tests whether the message `space` is canonical, and otherwise makes its canonical bytes. A message without canonical
/// bytes is refused.
///
/// `space` is any [`Asked`], so the clause `work` bounds how often the message is read.
#[inline(always)]
fn find_bytes<M: Asked>(alloc: Global, space: M, limits: Limits) -> Result<Found, Refusal>
    // `space` must allow 67 * (budget + 1) reads and turns of loops, and one more to start the count.
    requires work { M.allows space (67 * (limits.budget + 1) + 1) }
    ensures { IsFoundTold (M.message space) limits result }
{
    space.ask(FindTask { alloc, limits })
}

/// Returns the bytes of the first segment of the message `space`.
#[inline(always)]
fn first_bytes<S: Space>(space: &S) -> &[u8]
    ensures { result.now ≡ bytes_of (segment_at (S.message space.now) 0) }
{
    let _segments = space.segments();
    let words = space.words(0).unwrap_or(0);
    space.bytes(Place::ROOT, 8 * words as usize)
}

/// Returns the canonical bytes of the message `space`, which are `found`.
#[inline(always)]
fn bytes_found<'a, S: Space>(space: &'a S, found: &'a Found) -> &'a [u8]
    ensures { result.now ≡ found_bytes (S.message space.now) found.now }
{
    match found {
        Found::InPlace(_) => first_bytes(space),
        Found::Made(canonical) => canonical.bytes.as_slice(),
    }
}

/// Returns the price of the message whose canonical bytes are `found`.
#[inline(always)]
fn price_found(found: &Found) -> u32
    ensures { result ≡ found_price found.now }
{
    match found {
        Found::InPlace(paid) => *paid,
        Found::Made(canonical) => canonical.paid,
    }
}

/// Returns the digest of the canonical bytes of the message `space`. The bytes of a canonical message are hashed in
/// place.
#[inline(always)]
fn digest_of<S: Space>(alloc: Global, space: &S, limits: Limits) -> Result<Digested, Refusal>
    ensures { IsDigestTold (S.message space.now) limits result }
{
    let found = find_bytes(alloc, space, limits)?;
    Ok(Digested {
        digest: Sha256::digest(bytes_found(space, &found)),
        paid: price_found(&found),
    })
}

/// The task of `digest_in` and `digest_held`, which makes canonical bytes only if the message is not canonical.
#[derive(Clone, Copy)]
struct Hash;

impl MessageTask<Global> for Hash {
    type Answer = Digested;

    ghost answers = { λ _ m limits r _. IsDigestTold m limits r };

    #[inline(always)]
    fn run<S: Space>(
        &mut self,
        alloc: Global,
        message: &S,
        limits: Limits,
    ) -> Result<Digested, Refusal> {
        digest_of(alloc, message, limits)
    }
}

/// Returns the digest of the canonical bytes of the message that `bytes` encode in `form`, within `limits`. A message
/// without canonical bytes is refused.
///
/// The bytes are unpacked or unframed at most once. Memory is allocated on `alloc` only for a packed text, for a frame
/// of more than 64 segments, and for the canonical bytes of a message that is not canonical.
pub fn digest_in(
    alloc: Global,
    form: Form,
    bytes: &[u8],
    limits: Limits,
) -> Result<Digested, Refusal>
    ensures found { IfOk result (λ d. (text : List ℕ) × Answers form bytes.now limits text d.paid
        × (d.digest ≡ sha256 text)) }
    ensures refused { IfErr result (λ e. IsRefused form bytes.now limits e) }
    ensures memory { IsErrOf result refusals.Memory → MayNeedToMake form bytes.now limits }
    ensures bounded { MatchResult result (λ d. d.paid ≤ limits.budget) (λ e. IsPaidWithin limits.budget e) }
{
    run_task(alloc, &mut Hash, form, bytes, limits)
}

/// Returns the digest of the canonical bytes of the message that is held in `segments`, within `limits`. Segments that
/// are no message, and a message without canonical bytes, are refused. Memory is allocated on `alloc` only for the
/// canonical bytes of a message that is not canonical.
pub fn digest_held(
    alloc: Global,
    segments: &[&[[u8; 8]]],
    limits: Limits,
) -> Result<Digested, Refusal>
    ensures found { IfOk result (λ d. (text : List ℕ) × AnswersHeld (message_of segments.now) limits text d.paid
        × (d.digest ≡ sha256 text)) }
    ensures refused { IfErr result (λ e. IsRefusedHeld (message_of segments.now) limits e) }
    ensures memory { IsErrOf result refusals.Memory → MayNeedBytes (message_of segments.now) limits }
    ensures bounded { MatchResult result (λ d. d.paid ≤ limits.budget) (λ e. IsPaidWithin limits.budget e) }
{
    run_held(alloc, &mut Hash, segments, limits)
}
