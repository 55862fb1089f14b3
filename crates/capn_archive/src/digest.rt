//! The SHA-256 of a message's canonical bytes.

ghost use Rattle.capn_canon.specs.MemoryNeed.{MayNeedBytes};
ghost use Rattle.capn_canon.specs.Refusal.{IsUnaccepted};
ghost use Rattle.capn_archive.specs.Digest.{IsDigest, IsDigestIfAny, IsUndigested};
ghost use Rattle.capn_archive.specs.Tasks.{Finds};

use capn_canon::{Refusal, canonical_of, own_canonical};
use capn_serve::ServeFault;
use capn_walk::Limits;
use capn_words::Space;
use sha2::{Digest, Sha256};
use std::alloc::Allocator;

/// Returns the SHA-256 of the canonical bytes of `message`. If one pass finds the message canonical, its own bytes are
/// hashed, and no canonical bytes are made.
pub(crate) fn digest_of<S: Space, A: Allocator + Copy>(
    alloc: A,
    limits: Limits,
    message: &S,
) -> Result<[u8; 32], ServeFault>
    ensures { Finds (λ digest. IsDigest (S.message message.now) limits digest)
        (λ r. IsUndigested (S.message message.now) limits r) (MayNeedBytes (S.message message.now) limits) result }
{
    if let Some(own) = own_canonical(message, limits) {
        return Ok(Sha256::digest(own.bytes));
    }
    let _budget = limits.budget();
    match canonical_of(alloc, message, limits) {
        Ok(canonical) => Ok(Sha256::digest(&canonical.bytes)),
        Err(Refusal::Memory) => Err(ServeFault::Memory),
        Err(refusal) => Err(ServeFault::Refused(refusal)),
    }
}

/// Returns the digest of `message`, or `None` if the value of `message` has a capability. The error is `Refused` if the
/// walk refuses the message, and `Memory` if an allocation is refused.
pub(crate) fn digest_if_any<S: Space, A: Allocator + Copy>(
    alloc: A,
    limits: Limits,
    message: &S,
) -> Result<Option<[u8; 32]>, ServeFault>
    ensures { Finds (λ digest. IsDigestIfAny (S.message message.now) limits digest)
        (λ r. IsUnaccepted (S.message message.now) limits r) (MayNeedBytes (S.message message.now) limits) result }
{
    match digest_of(alloc, limits, message) {
        Ok(digest) => Ok(Some(digest)),
        Err(ServeFault::Refused(Refusal::Capability(_))) => Ok(None),
        Err(ServeFault::Refused(Refusal::Walk(stopped))) => {
            Err(ServeFault::Refused(Refusal::Walk(stopped)))
        }
        Err(_) => Err(ServeFault::Memory),
    }
}
