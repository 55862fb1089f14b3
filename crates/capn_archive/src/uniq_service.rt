//! The service `UniqService`, which leaves out each message whose canonical bytes equal an earlier message's.

ghost use Rattle.std.specs.Prelude.{◌≡◌, false, OnErr};
ghost use Rattle.std.specs.FinSet as set;
ghost use Rattle.capn_words.specs.Watched.{inner_of, has_failed};
ghost use Rattle.capn_archive.specs.CanonicalFrame.{AddsText};
ghost use Rattle.capn_digests.specs.Digests.{MayGrow};
ghost use Rattle.capn_archive.specs.UniqMessages as spec;
ghost use Rattle.capn_archive.specs.UniqMessages.{InsertsDigest, TriesToDeduplicate};
ghost use Rattle.capn_serve.specs.Outgoing.{outgoing};

use crate::digest::digest_of;
use crate::uniq_order::UniqOrder;
use capn_digests::DigestSet;
use capn_serve::{Position, ServeFault, Service, SkippedSoFar, add_bytes, one_more};
use capn_words::{Space, Watched};
use std::alloc::Allocator;
use std::io::Write;
use std::marker::Model;

/// The service of `uniq`. It writes the frame of each message unchanged, unless messages are only counted or an
/// earlier message had the same canonical bytes. Canonical bytes are compared by their SHA-256.
///
/// A message is refused by its walk or for a capability. A refused message ends the run, or is skipped if `keep_going`
/// is set in the order. Nothing is written for a skipped message, and later messages are not compared with it. The
/// service holds the digests of the messages served.
#[derive(Drop)]
pub struct UniqService<A: Allocator> {
    order: UniqOrder,
    digests: DigestSet<A>,
    served: u64,
    skipped: Option<SkippedSoFar>,
}

impl<A: Allocator> Model for UniqService<A> {
    ghost use Rattle.std.specs.FinSet as set;
    ghost use Rattle.std.specs.Ordering.{nat_cmp};
    ghost use Rattle.std.specs.Cmp.Lexicographic.{slice_cmp};
    ghost use Rattle.std.specs.Coded.{codes, coded_ℕ, coded_list};
    ghost use Rattle.capn_archive.specs.UniqMessages.{UniqState};

    ghost Value = { UniqState };

    ghost coded = { Prim.hlevel (codes, set.code {R = slice_cmp nat_cmp} (coded_list coded_ℕ)) };

    ghost view = { λ s.
        record { order = s.order; digests = s.digests.seen; served = s.served; skipped = s.skipped } };
}

/// Inserts `digest` into `digests`. Returns `true` if `digests` had it before.
fn insert_digest<A: Allocator + Copy>(
    digests: &mut DigestSet<A>,
    digest: [u8; 32],
) -> Result<bool, ServeFault>
    ensures inserts { InsertsDigest digests.old.seen digests.new.seen digest result }
    ensures memory { OnErr result (MayGrow digests.old digest) }
{
    Ok(digests.insert(digest)?)
}

/// Writes `frame`, unless messages are only counted or the message is a duplicate.
fn add_kept<W: Write, A: Allocator>(
    count: bool,
    is_duplicate: bool,
    frame: &[u8],
    text: &mut Vec<u8, A>,
    writer: &mut Watched<W>,
) -> Result<(), ServeFault>
    requires { has_failed writer.old ≡ false }
    ensures { AddsText (spec.kept_text count is_duplicate frame.now)
        (outgoing (W.contents (inner_of writer.old)) text.old.items)
        (outgoing (W.contents (inner_of writer.new)) text.new.items) (has_failed writer.new) result }
{
    if count || is_duplicate {
        return Ok(());
    }
    add_bytes(frame, text, writer)
}

impl<B: Allocator> UniqService<B> {
    pub(crate) fn order(&self) -> UniqOrder
        ensures { result ≡ self.now.order }
    {
        self.order
    }

    pub(crate) fn kept(&self) -> usize
        ensures { result ≡ set.len self.now.digests }
    {
        self.digests.len()
    }

    /// Returns the number of messages served so far. Skipped messages are not counted.
    pub(crate) fn served(&self) -> u64
        ensures { result ≡ self.now.served }
    {
        self.served
    }

    /// Returns the count of the skipped messages, if there are any.
    pub(crate) fn skipped(&self) -> Option<SkippedSoFar>
        ensures { result ≡ self.now.skipped }
    {
        self.skipped
    }
}

impl<B: Allocator + Copy> UniqService<B> {
    /// Returns a service that has served no message. The call takes no memory.
    pub(crate) fn new(alloc: B, order: UniqOrder) -> UniqService<B>
        ensures { result ≡ spec.first_state order }
    {
        UniqService {
            order,
            digests: DigestSet::new(alloc),
            served: 0,
            skipped: None,
        }
    }

    /// Stores the digest of `message`, and writes `frame` unless the message is a duplicate or messages are only
    /// counted.
    fn deduplicate<S: Space, W: Write, A: Allocator + Copy>(
        &mut self,
        alloc: A,
        frame: &[u8],
        message: &S,
        text: &mut Vec<u8, A>,
        writer: &mut Watched<W>,
    ) -> Result<(), ServeFault>
        requires { has_failed writer.old ≡ false }
        ensures { TriesToDeduplicate self.old frame.now (S.message message.now)
            (outgoing (W.contents (inner_of writer.old)) text.old.items)
            (outgoing (W.contents (inner_of writer.new)) text.new.items) (has_failed writer.new) result self.new }
    {
        let digest = digest_of(alloc, self.order.limits, message)?;
        let is_duplicate = insert_digest(&mut self.digests, digest)?;
        self.served = self.served.saturating_add(1);
        add_kept(self.order.count, is_duplicate, frame, text, writer)
    }
}

impl<B: Allocator + Copy> Service for UniqService<B> {
    ghost use Rattle.capn_archive.specs.UniqMessages as spec;
    ghost use Rattle.capn_serve.specs.Fold.{never};

    ghost serves = { spec.serves };

    ghost refuses = { spec.refuses };

    ghost done = { never };

    #[inline(always)]
    fn is_done(&self, _at: Position) -> bool {
        false
    }

    fn serve<S: Space, W: Write, A: Allocator + Copy>(
        &mut self,
        alloc: A,
        at: Position,
        frame: &[u8],
        message: &S,
        text: &mut Vec<u8, A>,
        writer: &mut Watched<W>,
    ) -> Result<(), ServeFault> {
        match self.deduplicate(alloc, frame, message, text, writer) {
            Ok(()) => Ok(()),
            Err(fault) => match fault {
                ServeFault::Refused(refusal) => {
                    if !self.order.keep_going {
                        return Err(ServeFault::Refused(refusal));
                    }
                    self.skipped = Some(one_more(self.skipped, at));
                    Ok(())
                }
                ServeFault::Memory => Err(ServeFault::Memory),
                ServeFault::Io => Err(ServeFault::Io),
            },
        }
    }
}
