//! The lengths of runs of zero words and of dense words, which are words with at most one zero byte.
ghost use Rattle.std.specs.Prelude.{◌≡◌, ◌+◌, ◌*◌, ◌<◌, ◌≤◌, length, take, drop, replicate};
ghost use Rattle.capn_pack.specs.Chosen.{IsDense};
ghost use Rattle.capn_pack.specs.inner.Steps.{IsZeroRun, IsDenseRun};

use crate::signs::{first_dense, first_tag, first_zeros, tag};

/// Returns the word that begins at byte `at` of `bytes`.
#[inline(always)]
pub(crate) fn word_at(bytes: &[u8], at: usize) -> [u8; 8]
    requires { at + 8 ≤ length bytes.now }
    ensures { result ≡ take 8 (drop at bytes.now) }
{
    let mut word = [0; 8];
    word.copy_from_slice(&bytes[at..at + 8]);
    word
}

#[inline(always)]
fn two_at(bytes: &[u8], at: usize) -> [u8; 16]
    requires { at + 16 ≤ length bytes.now }
    ensures { result ≡ take 16 (drop at bytes.now) }
{
    let mut words = [0; 16];
    words.copy_from_slice(&bytes[at..at + 16]);
    words
}

#[inline(always)]
fn eight_at(bytes: &[u8], at: usize) -> [u8; 64]
    requires { at + 64 ≤ length bytes.now }
    ensures { result ≡ take 64 (drop at bytes.now) }
{
    let mut words = [0; 64];
    words.copy_from_slice(&bytes[at..at + 64]);
    words
}

/// Counts how many words in a row, from byte `start` of `bytes` on, are zero, up to eight. The words are tested one by
/// one.
fn few_zeros(bytes: &[u8], start: usize) -> usize
    requires { start ≤ length bytes.now }
    ensures most { result ≤ 8 }
    ensures run { IsZeroRun bytes.now start result }
    ensures last { result < 8 → take 8 (drop (start + 8 * result) bytes.now) ≡ replicate 8 0 → ⊥ }
{
    let mut count = 0;
    while count < 8 && start + 8 * count + 8 <= bytes.len() {
        if tag(&word_at(bytes, start + 8 * count)) != 0 {
            return count;
        }
        count += 1;
    }
    count
}

/// Counts how many words in a row, from byte `at` of `bytes` on, are zero, up to eight. One test finds the number, if
/// there are eight words.
#[inline(always)]
fn zero_step(bytes: &[u8], at: usize) -> usize
    requires { at ≤ length bytes.now }
    ensures most { result ≤ 8 }
    ensures run { IsZeroRun bytes.now at result }
    ensures last { result < 8 → take 8 (drop (at + 8 * result) bytes.now) ≡ replicate 8 0 → ⊥ }
{
    if bytes.len() < at + 64 {
        return few_zeros(bytes, at);
    }
    first_zeros(&eight_at(bytes, at))
}

/// Counts how many words in a row, from byte `start` of `bytes` on, are zero, up to 255. The first word is tested
/// alone, since most runs end before it, and the words from it on eight at a time.
#[inline(always)]
pub(crate) fn zero_run(bytes: &[u8], start: usize) -> usize
    requires { start ≤ length bytes.now }
    ensures run { IsZeroRun bytes.now start result }
    ensures last { result < 255 → take 8 (drop (start + 8 * result) bytes.now) ≡ replicate 8 0 → ⊥ }
{
    if bytes.len() < start + 8 {
        return 0;
    }
    if tag(&word_at(bytes, start)) != 0 {
        return 0;
    }
    let mut count = 0;
    while count < 248 {
        let step = zero_step(bytes, start + 8 * count);
        count += step;
        if step < 8 {
            return count;
        }
    }
    count + zero_step(bytes, start + 8 * count).min(255 - count)
}

/// Counts how many words in a row, from byte `start` of `bytes` on, have at most one zero byte, up to eight. The words
/// are tested one by one.
fn few_dense(bytes: &[u8], start: usize) -> usize
    requires { start ≤ length bytes.now }
    ensures run { IsDenseRun bytes.now start 8 result }
    ensures last { result < 8 → IsDense (take 8 (drop (start + 8 * result) bytes.now)) → ⊥ }
{
    let mut count = 0;
    while count < 8 && start + 8 * count + 8 <= bytes.len() {
        if tag(&word_at(bytes, start + 8 * count)).count_ones() < 7 {
            return count;
        }
        count += 1;
    }
    count
}

/// Counts how many words in a row, from byte `at` of `bytes` on, have at most one zero byte, up to eight. One test
/// finds the number, if there are eight words.
#[inline(always)]
fn raw_step(bytes: &[u8], at: usize) -> usize
    requires { at ≤ length bytes.now }
    ensures run { IsDenseRun bytes.now at 8 result }
    ensures last { result < 8 → IsDense (take 8 (drop (at + 8 * result) bytes.now)) → ⊥ }
{
    if bytes.len() < at + 64 {
        return few_dense(bytes, at);
    }
    first_dense(&eight_at(bytes, at))
}

/// Counts how many words in a row, from byte `start` of `bytes` on, have at most one zero byte, up to sixteen. The
/// first word is tested alone, since most runs end before it, and the words from it on eight at a time.
#[inline(always)]
pub(crate) fn raw_run(bytes: &[u8], start: usize) -> usize
    requires { start ≤ length bytes.now }
    ensures run { IsDenseRun bytes.now start 16 result }
    ensures last { result < 16 → IsDense (take 8 (drop (start + 8 * result) bytes.now)) → ⊥ }
{
    if bytes.len() < start + 16 {
        return few_dense(bytes, start);
    }
    if first_tag(&two_at(bytes, start)).count_ones() < 7 {
        return 0;
    }
    let first = raw_step(bytes, start);
    if first < 8 {
        return first;
    }
    8 + raw_step(bytes, start + 64)
}

/// Counts how many words in a row, from byte `start` of `bytes` on, have at most one zero byte, up to 255. The words
/// are tested eight at a time.
#[inline(always)]
pub(crate) fn long_run(bytes: &[u8], start: usize) -> usize
    requires { start ≤ length bytes.now }
    ensures run { IsDenseRun bytes.now start 255 result }
    ensures last { result < 255 → IsDense (take 8 (drop (start + 8 * result) bytes.now)) → ⊥ }
{
    let mut count = 0;
    while count < 248 {
        let step = raw_step(bytes, start + 8 * count);
        count += step;
        if step < 8 {
            return count;
        }
    }
    count + raw_step(bytes, start + 8 * count).min(255 - count)
}
