//! The bytes that are written between quotes for those of a text.

ghost use Rattle.std.specs.Prelude.{◌≡◌, ◌≤◌, ◌<◌, ◌+◌, ◌^◌, ◌%◌, [], ◌∷◌, ◌++◌, length, take, drop, false, ◌==◌};
ghost use Rattle.capn_quoted.specs.Escapes as spec;

use crate::hidden::is_hidden;

/// The length of the longest run of unescaped bytes that is appended at once.
const PIECE: usize = 4096;

/// Returns `true` if `byte`, which is ASCII, is a quote or a backslash.
fn is_marked(byte: u8) -> bool
    requires low { 32 ≤ byte }
    requires high { byte < 128 }
    ensures quote { result ≡ false → (byte == 34) ≡ false }
    ensures backslash { result ≡ false → (byte == 92) ≡ false }
{
    // Each byte from 0x20 on has an x here if it is a quote or a backslash, and else a dot.
    let marks =
        b"..x.........................................................x...................................";
    marks[(byte - 32) as usize] == b'x'
}

/// Returns `true` if `byte` may need an escape, or may begin a hidden code point.
fn may_be_escaped(byte: u8) -> bool
    ensures bare { result ≡ false → spec.escaped byte ≡ byte ∷ [] }
    ensures low { result ≡ false → byte < 192 }
{
    if byte < 32 || byte >= 128 {
        byte < 32 || byte >= 192
    } else {
        is_marked(byte)
    }
}

/// Returns the number of bytes at the front of `bytes` that stand as they are between quotes. The result is at most
/// 4,096, and a byte that begins a code point of several bytes ends the run. Takes no memory.
fn bare_run(bytes: &[u8]) -> usize
    ensures within { result ≤ length bytes.now }
    ensures short { result ≤ 4096 }
    ensures bare { spec.escapes bytes.now ≡ take result bytes.now ++ spec.escapes (drop result bytes.now) }
{
    for i in 0..bytes.len() {
        if may_be_escaped(bytes[i]) {
            return i;
        }
        if i == PIECE {
            return i;
        }
    }
    bytes.len()
}

/// Splits `bytes` into the bytes at its front that stand as they are between quotes, at most 4,096, and the bytes after
/// these. A byte that begins a code point of several bytes ends the front. Takes no memory.
pub fn split_bare(bytes: &[u8]) -> (&[u8], &[u8])
    ensures written { spec.escapes bytes.now ≡ result.0.now ++ spec.escapes result.1.now }
    ensures whole { length result.0.now + length result.1.now ≡ length bytes.now }
    ensures short { length result.0.now ≤ 4096 }
{
    bytes.split_at(bare_run(bytes))
}

/// Returns the low six bits of `byte`.
fn bits(byte: u8) -> u32
    ensures { result ≡ byte % 64 }
{
    byte as u32 % 64
}

fn of_two(first: u8, rest: &[u8]) -> u32
    ensures value { result ≡ spec.of_two first rest.now }
    ensures small { result < 2 ^ 16 }
{
    match rest {
        [c, ..] => (first as u32).saturating_sub(192) * 64 + bits(*c),
        _ => 0,
    }
}

fn of_three(first: u8, rest: &[u8]) -> u32
    ensures value { result ≡ spec.of_three first rest.now }
    ensures small { result < 2 ^ 24 }
{
    match rest {
        [c, d, ..] => (first as u32).saturating_sub(224) * 4096 + bits(*c) * 64 + bits(*d),
        _ => 0,
    }
}

fn of_four(first: u8, rest: &[u8]) -> u32
    ensures value { result ≡ spec.of_four first rest.now }
    ensures small { result < 2 ^ 24 }
{
    match rest {
        [c, d, e, ..] => {
            (first as u32).saturating_sub(240) * 262144 + bits(*c) * 4096 + bits(*d) * 64 + bits(*e)
        }
        _ => 0,
    }
}

/// Returns the code point of two to four bytes that begins with the byte `first` and goes on with `rest`. Returns 0 if
/// `first` begins no such code point, or if bytes are missing. If the bytes are no UTF-8, the result means nothing.
pub fn code_at(first: u8, rest: &[u8]) -> u32
    ensures { result ≡ spec.code_at first rest.now }
{
    if first < 192 {
        0
    } else if first < 224 {
        of_two(first, rest)
    } else if first < 240 {
        of_three(first, rest)
    } else {
        of_four(first, rest)
    }
}

/// Returns the number of bytes of a code point after its `first` byte.
fn more_of(first: u8) -> usize
    ensures { result ≡ spec.more_of first }
{
    if first < 224 {
        1
    } else if first < 240 {
        2
    } else {
        3
    }
}

/// Returns the number of bytes of `rest` that are written together with the byte `first`: the other bytes of a hidden
/// code point, or none.
#[tactic(auto, using(crate::proofs::Fronts::after_first, crate::proofs::Fronts::covered_within))]
fn covered(first: u8, rest: &[u8]) -> usize
    ensures value { result ≡ spec.covered first rest.now }
    ensures within { result ≤ length rest.now }
    ensures after { spec.escapes (first ∷ rest.now)
        ≡ spec.first_written first rest.now ++ spec.escapes (drop result rest.now) }
{
    if is_hidden(code_at(first, rest)) {
        more_of(first)
    } else {
        0
    }
}

/// Returns the bytes of `rest` after those that are written together with the byte `first`: after the other bytes of a
/// hidden code point, or all of `rest`. Takes no memory.
pub fn after_first(first: u8, rest: &[u8]) -> &[u8]
    ensures written { spec.escapes (first ∷ rest.now)
        ≡ spec.first_written first rest.now ++ spec.escapes result.now }
    ensures shorter { length result.now ≤ length rest.now }
{
    let (_, after) = rest.split_at(covered(first, rest));
    after
}
