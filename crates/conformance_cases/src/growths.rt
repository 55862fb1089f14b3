//! `answer_each`: answers a case with enough memory, and then with each allocation of its call refused in turn.

ghost use Rattle.std.specs.Prelude.{◌≡◌, ◌<◌, ◌++◌, codes, drop, length, HoldsAt, IfOk, string_bytes};
ghost use Rattle.hex.specs.Hex.{encode_lower};

use anyhow::{Result, bail};
use std::alloc::Global;
use test_allocator::Refusing;

/// The allocator for the call of a case. Memory for the case itself, such as its text, is never refused.
pub type Heap = Refusing<Global>;

/// The end of the answer for a call that reported a refused allocation, after the bytes that the call had written.
pub const MEMORY: &str = "Memory";

/// A program that answers cases.
pub trait Answers {
    /// Returns the answer for the call given by `words`, as a line. The call takes its memory from `heap`.
    fn answer(&self, alloc: Global, heap: &Heap, words: &[&str]) -> Result<String>;
}

/// Returns the answer for a call that had an allocation refused: the bytes `written` before, and `MEMORY`.
pub fn cut_short(alloc: Global, written: &[u8]) -> Result<String>
    ensures { IfOk result (λ text. string_bytes text ≡ encode_lower written.now ++ codes "Memory") }
{
    let digits = hex::encode(alloc, written)?;
    Ok(format!(in alloc; "{digits}{MEMORY}")?)
}

/// Returns the answer `text` without the status at its start, if there is one.
fn behind_status(text: &str) -> &str {
    match text.strip_prefix("status 0, ") {
        Some(rest) => rest,
        None => text.strip_prefix("status 1, ").unwrap_or(text),
    }
}

/// Tests whether `told`, the answer with a refused allocation, is `MEMORY` after a prefix of `want`. The status of
/// `want` may be left out.
fn is_cut_short(told: &str, want: &str) -> bool {
    match told.strip_suffix(MEMORY) {
        Some(begun) => want.starts_with(begun) || behind_status(want).starts_with(begun),
        None => false,
    }
}

/// Makes a call with allocation `number` refused. The call must report the refusal. The same call without a refusal
/// must then give the answer `want`.
fn refuse<C: Answers>(
    alloc: Global,
    calls: &C,
    words: &[&str],
    number: u64,
    want: &str,
) -> Result<()> {
    let heap = Heap::nth(alloc, number);
    let told = calls.answer(alloc, &heap, words)?;
    if !is_cut_short(told.as_str(), want) {
        bail!("growth {number}: {told}");
    }
    let again = calls.answer(alloc, &heap, words)?;
    if again.as_str() != want {
        bail!("after growth {number}: {again}");
    }
    Ok(())
}

/// The allocations of a call that are refused.
#[derive(Clone, Copy, PartialEq, Eq)]
pub enum Growths {
    /// Each allocation.
    Each,
    /// About 64 allocations at equal distances, for a call after the word `few`. Such a call has a large message. To
    /// refuse each of its thousands of allocations would take minutes in runs that check each step.
    Few,
}

/// Returns the allocations to refuse for a case, and the words of its call.
pub fn growths_and_call<'w, 'a>(words: &'w [&'a str]) -> (Growths, &'w [&'a str])
    ensures few { 0 < length words.now → HoldsAt (λ it. it.now ≡ codes "few") words.now 0
        → (result.0 ≡ Growths.Few) × (result.1.now ≡ drop 1 words.now) }
    ensures each { (HoldsAt (λ it. it.now ≡ codes "few") words.now 0 → ⊥)
        → (result.0 ≡ Growths.Each) × (result.1.now ≡ words.now) }
{
    match words {
        [first, call @ ..] if *first == "few" => (Growths::Few, call),
        _ => (Growths::Each, words),
    }
}

/// Returns the answer for the call given by `words`, as a line, after checking the call with each of `growths` refused.
pub fn answer_each<C: Answers>(
    alloc: Global,
    calls: &C,
    words: &[&str],
    growths: Growths,
) -> Result<String> {
    let ample = Heap::nth(alloc, 0);
    let want = calls.answer(alloc, &ample, words)?;
    let count = ample.count();
    let gap = match growths {
        Growths::Each => 1,
        Growths::Few => count / 64,
    };
    let mut next = 1;
    for number in 1..=count {
        if number >= next {
            refuse(alloc, calls, words, number, want.as_str())?;
            next = number.saturating_add(gap);
        }
    }
    Ok(want)
}
