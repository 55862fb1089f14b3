//! The lines of one message: the price line, the verdict line and the digest line. The price line has the price and the
//! number of visits. The verdict line, for a bare message, also says whether the bytes are canonical.

ghost use Rattle.std.specs.Prelude.{◌≡◌, ◌<◌, ◌≤◌, ◌∷◌, ◌++◌, [], length};
ghost use Rattle.sha2.specs.Sha256.{sha256};
ghost use Rattle.hex.specs.Hex.{encode_lower};
ghost use Rattle.capn_commands.specs.MessageText.{PutsMessageText, PutsBareMessageText, PutsLine, price_line, priced};
ghost use Rattle.capn_commands.specs.declared.plan.MessageText.TheVariants as kinds;

use crate::fault::ToolFault;
use capn_canon::{canonical_of, own_canonical, survey_bare};
use capn_serve::NumberLine;
use capn_walk::{Limits, survey};
use capn_words::{Bare, Space};
use sha2::{Digest, Sha256};
use std::alloc::Allocator;

/// Appends a line with the price `paid` and the number `visits`. The line ends with the bytes `end`, newline included.
/// Nothing is appended if an allocation is refused.
#[inline(always)]
fn put_priced<A: Allocator>(
    text: &mut Vec<u8, A>,
    paid: u32,
    visits: u32,
    end: &[u8],
) -> Result<(), ToolFault>
    requires { length end.now ≤ 16 }
    ensures { PutsLine (priced paid visits end.now) text.old.items text.new.items result }
{
    // Two numbers of at most 20 digits each, the 16 bytes of `ok paid ` and ` visits `, and at most 16 bytes of `end`.
    let mut line = NumberLine::<72>::new();
    line.put(end);
    line.put_named(b" visits ", visits as u64);
    line.put_named(b"ok paid ", paid as u64);
    Ok(text.extend_from_slice(line.as_bytes())?)
}

/// Returns the line with the price `paid` and the number `visits`, each of one digit, as a small message has them. The
/// line has a constant length, so no length is computed.
#[inline(always)]
fn short_line(paid: u32, visits: u32) -> [u8; 19]
    requires paid { paid < 10 }
    requires visits { visits < 10 }
    ensures { result ≡ price_line paid visits }
{
    let mut line = *b"ok paid 0 visits 0\n";
    line[8] = b'0' + paid as u8;
    line[17] = b'0' + visits as u8;
    line
}

/// Appends the line with the price `paid` and the number `visits`. Nothing is appended if an allocation is refused.
#[inline(always)]
fn put_price_line<A: Allocator>(
    text: &mut Vec<u8, A>,
    paid: u32,
    visits: u32,
) -> Result<(), ToolFault>
    ensures { PutsLine (price_line paid visits) text.old.items text.new.items result }
{
    if paid < 10 && visits < 10 {
        let line = short_line(paid, visits);
        return Ok(text.extend_from_slice(&line)?);
    }
    put_priced(text, paid, visits, b"\n")
}

/// Appends the line with the price of the message `space`, in words, and with its number of visits. After a fault
/// `text` is unchanged.
#[inline(always)]
pub fn put_price<S: Space, A: Allocator + Copy>(
    alloc: A,
    space: &S,
    limits: Limits,
    text: &mut Vec<u8, A>,
) -> Result<(), ToolFault>
    ensures { PutsMessageText kinds.Price (S.message space.now) limits text.old.items text.new.items result }
{
    let surveyed = survey(alloc, space, limits)?;
    put_price_line(text, surveyed.paid, surveyed.visits)
}

/// Appends the verdict line of a bare message: the price, the number of visits, and whether the bytes are canonical.
/// Memory is allocated only for the line. After a fault `text` is unchanged.
pub fn put_verdict<A: Allocator + Copy>(
    alloc: A,
    space: &Bare<'_>,
    limits: Limits,
    text: &mut Vec<u8, A>,
) -> Result<(), ToolFault>
    ensures { PutsBareMessageText kinds.Price space.now limits text.old.items text.new.items result }
{
    let checked = survey_bare(alloc, space, limits)?;
    if checked.is_canonical {
        return put_priced(text, checked.paid, checked.visits, b" canonical\n");
    }
    put_priced(text, checked.paid, checked.visits, b" not-canonical\n")
}

/// Returns the 64 hexadecimal digits of the SHA-256 of `bytes`, and a newline.
fn digest_line(bytes: &[u8]) -> [u8; 65]
    ensures { result ≡ encode_lower (sha256 bytes.now) ++ 10 ∷ [] }
{
    let digest = Sha256::digest(bytes);
    let mut line = [10; 65];
    let _ = hex::encode_to_slice(digest.as_slice(), &mut line[..64]);
    line
}

/// Appends the line with the digest of `bytes`. Nothing is appended if an allocation is refused.
fn put_digest_line<A: Allocator>(bytes: &[u8], text: &mut Vec<u8, A>) -> Result<(), ToolFault>
    ensures { PutsLine (encode_lower (sha256 bytes.now) ++ 10 ∷ []) text.old.items text.new.items result }
{
    let line = digest_line(bytes);
    Ok(text.extend_from_slice(&line)?)
}

/// Appends the line with the digest of a message's canonical bytes. If the message is canonical, one pass finds that
/// out, and the bytes of the message are hashed without a copy. After a fault `text` is unchanged.
pub fn put_digest<S: Space, A: Allocator + Copy>(
    alloc: A,
    space: &S,
    limits: Limits,
    text: &mut Vec<u8, A>,
) -> Result<(), ToolFault>
    ensures { PutsMessageText kinds.Digest (S.message space.now) limits text.old.items text.new.items result }
{
    if let Some(own) = own_canonical(space, limits) {
        return put_digest_line(own.bytes, text);
    }
    let canonical = canonical_of(alloc, space, limits)?;
    put_digest_line(&canonical.bytes, text)
}
