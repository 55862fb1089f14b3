//! The answers for calls on messages: `limits`, `canonicalise`, `again` and `equal`.

use crate::refusals::told;
use anyhow::{Result, anyhow, bail};
use capn_canon::{Canonical, Form, LayoutFault, Refusal, canonicalise, layout};
use capn_pack::{UnpackFault, unpack};
use capn_stream::{FrameFault, first};
use capn_value::{Memory, Tariff, Tree, copy, trim};
use capn_walk::{Fault, Limits, walk};
use capn_words::{Bare, MOST_MESSAGE_WORDS, Space};
use conformance_cases::{Heap, MEMORY, bytes_at, digits_of, form_at, number_at};
use std::alloc::Global;

/// Reads the limits in three words of the line, from word `at` on. Returns `None` if they are not valid.
fn limits_at(words: &[&str], at: usize) -> Result<Option<Limits>> {
    let message_words = number_at(words, at)?;
    let budget = number_at(words, at.saturating_add(1))?;
    let depth = number_at(words, at.saturating_add(2))?;
    Ok(Limits::new(message_words, budget, depth))
}

/// Reads the limits, which must be valid, from word `at` of the line on, with the prices of `tariff`.
pub(crate) fn true_limits_at(words: &[&str], at: usize, tariff: Tariff) -> Result<Limits> {
    match limits_at(words, at)? {
        Some(limits) => Ok(limits.with_tariff(tariff)),
        None => Err(anyhow!("no limits")),
    }
}

pub(crate) fn limits_answer(alloc: Global, words: &[&str]) -> Result<String> {
    let text = match limits_at(words, 1)? {
        Some(_) => "limits",
        None => "none",
    };
    Ok(String::from_str(alloc, text)?)
}

/// Checks that `bytes` are the layout of `tree`, and otherwise returns an error. Returns `false` if an allocation was
/// refused.
fn is_layout(heap: &Heap, tree: &Tree<&Heap>, bytes: &[u8]) -> Result<bool> {
    match layout(heap, tree) {
        Ok(laid) if laid.as_slice() == bytes => Ok(true),
        Ok(_) => Err(anyhow!("the layout of the tree is another one")),
        Err(LayoutFault::Memory) => Ok(false),
        Err(_) => Err(anyhow!("no layout")),
    }
}

/// Checks that `bytes` are the layout of the tree `made`. Returns `false` if an allocation was refused.
fn is_layout_of_made(heap: &Heap, made: Result<Tree<&Heap>, Memory>, bytes: &[u8]) -> Result<bool> {
    match made {
        Ok(tree) => {
            let told = is_layout(heap, &tree, bytes);
            // One call of `drop` is cheaper for the prover than fields that are dropped one by one.
            drop(tree);
            told
        }
        Err(_) => Ok(false),
    }
}

/// Checks that `bytes` are the layout of `tree`, of its copy, and of its trimmed form. Returns `false` if an allocation
/// was refused.
fn is_layout_of_each(heap: &Heap, tree: &Tree<&Heap>, bytes: &[u8]) -> Result<bool> {
    Ok(
        is_layout(heap, tree, bytes)?
            && is_layout_of_made(heap, copy(heap, tree), bytes)?
            && is_layout_of_made(heap, trim(heap, tree), bytes)?,
    )
}

/// Checks that `bytes` are the layout of the tree that a walk of `space` makes. Returns `false` if an allocation was
/// refused.
fn is_layout_of<S: Space>(heap: &Heap, space: &S, limits: Limits, bytes: &[u8]) -> Result<bool> {
    match walk(heap, space, limits) {
        Ok(walked) => {
            let told = is_layout_of_each(heap, &walked.tree, bytes);
            drop(walked);
            told
        }
        Err(stopped) if matches!(stopped.fault, Fault::Memory) => Ok(false),
        Err(_) => Err(anyhow!("no tree")),
    }
}

/// Checks that `bytes` are the layout of the tree of the first message in `stream`. Returns `false` if an allocation
/// was refused.
fn is_layout_of_frame(heap: &Heap, stream: &[u8], limits: Limits, bytes: &[u8]) -> Result<bool> {
    match first(heap, stream, MOST_MESSAGE_WORDS) {
        Ok((space, _)) => is_layout_of(heap, &space, limits, bytes),
        Err(FrameFault::Memory) => Ok(false),
        Err(_) => Err(anyhow!("no frame")),
    }
}

/// Checks that `bytes` are the layout of the tree of the message that `input` holds in `form`. Returns `false` if an
/// allocation was refused.
fn is_layout_in_form(
    heap: &Heap,
    form: Form,
    input: &[u8],
    limits: Limits,
    bytes: &[u8],
) -> Result<bool> {
    match form {
        Form::Bare => match Bare::new(input) {
            Ok(space) => is_layout_of(heap, &space, limits, bytes),
            Err(_) => Err(anyhow!("no segment")),
        },
        Form::Stream => is_layout_of_frame(heap, input, limits, bytes),
        Form::Packed => match unpack(heap, input, MOST_MESSAGE_WORDS) {
            Ok(text) => is_layout_of_frame(heap, text.as_slice(), limits, bytes),
            Err(UnpackFault::Memory) => Ok(false),
            Err(_) => Err(anyhow!("no text")),
        },
    }
}

/// Returns the line of the canonical `bytes` and their price `paid`.
pub(crate) fn paid_text(alloc: Global, paid: u32, bytes: &[u8]) -> Result<String> {
    let digits = digits_of(alloc, bytes)?;
    Ok(format!(in alloc; "paid {paid}, {digits}")?)
}

/// Returns the line of a message's canonical bytes, or of the reason why it has none.
pub(crate) fn canonical_text(
    alloc: Global,
    form: Form,
    bytes: &[u8],
    limits: Limits,
) -> Result<String> {
    match canonicalise(alloc, form, bytes, limits) {
        Ok(canonical) => paid_text(alloc, canonical.paid, canonical.bytes.as_slice()),
        Err(refusal) => told(alloc, refusal),
    }
}

/// Returns the line of canonical bytes, or `MEMORY` if an allocation was refused. The bytes must be the layout of three
/// trees: the tree of `input`, a copy of that tree, and the trimmed tree.
fn laid_text(
    alloc: Global,
    heap: &Heap,
    form: Form,
    input: &[u8],
    limits: Limits,
    canonical: &Canonical<&Heap>,
) -> Result<String> {
    if is_layout_in_form(heap, form, input, limits, canonical.bytes.as_slice())? {
        paid_text(alloc, canonical.paid, canonical.bytes.as_slice())
    } else {
        Ok(String::from_str(alloc, MEMORY)?)
    }
}

/// Answers `canonicalise FORM MESSAGE_WORDS BUDGET DEPTH BYTES`. The canonical bytes must be the layout of three trees:
/// the tree that a walk makes, a copy of that tree, and the trimmed tree.
pub(crate) fn canonicalise_answer(
    alloc: Global,
    heap: &Heap,
    words: &[&str],
    tariff: Tariff,
) -> Result<String> {
    let form = form_at(words, 1)?;
    let limits = true_limits_at(words, 2, tariff)?;
    let bytes = bytes_at(alloc, words, 5)?;
    match canonicalise(heap, form, bytes.as_slice(), limits) {
        Ok(canonical) => laid_text(alloc, heap, form, bytes.as_slice(), limits, &canonical),
        Err(refusal) => told(alloc, refusal),
    }
}

/// Returns the answer of `again` for the canonical bytes `once`: whether they are their own canonical bytes.
fn again_text(heap: &Heap, once: &[u8], limits: Limits) -> &'static str {
    match canonicalise(heap, Form::Bare, once, limits) {
        Ok(again) if again.bytes.as_slice() == once => "again",
        Ok(_) => "others",
        Err(Refusal::Memory) => MEMORY,
        Err(_) => "refused again",
    }
}

/// Answers `again FORM MESSAGE_WORDS BUDGET DEPTH BYTES`: whether the canonical bytes, read as a bare message, are
/// their own canonical bytes under the same limits. The answer is `refused` if the message has no canonical bytes.
pub(crate) fn again_answer(
    alloc: Global,
    heap: &Heap,
    words: &[&str],
    tariff: Tariff,
) -> Result<String> {
    let form = form_at(words, 1)?;
    let limits = true_limits_at(words, 2, tariff)?;
    let bytes = bytes_at(alloc, words, 5)?;
    let text = match canonicalise(heap, form, bytes.as_slice(), limits) {
        Ok(once) => again_text(heap, once.bytes.as_slice(), limits),
        Err(Refusal::Memory) => MEMORY,
        Err(_) => "refused",
    };
    Ok(String::from_str(alloc, text)?)
}

/// Returns the word that says whether `canonical` equals `first`, the canonical bytes of the first message.
fn equal_text(first: &[u8], canonical: Result<Canonical<&Heap>, Refusal>) -> Result<&'static str> {
    match canonical {
        Ok(canonical) if canonical.bytes.as_slice() == first => Ok("equal"),
        Ok(_) => Ok("different"),
        Err(Refusal::Memory) => Ok(MEMORY),
        Err(_) => Err(anyhow!("refused")),
    }
}

/// Returns the word that says whether the canonical bytes of the message at word `at` of the line equal `first`.
fn equal_at(
    alloc: Global,
    heap: &Heap,
    words: &[&str],
    at: usize,
    first: &[u8],
) -> Result<&'static str> {
    let form = form_at(words, at)?;
    let bytes = bytes_at(alloc, words, at.saturating_add(1))?;
    let canonical = canonicalise(heap, form, bytes.as_slice(), Limits::usual());
    equal_text(first, canonical)
}

/// Returns the first answer of `equal_at` that is not `equal`, for the messages after the first, or else `equal`.
fn equal_each(alloc: Global, heap: &Heap, words: &[&str], first: &[u8]) -> Result<&'static str> {
    for pair in 1..words.len() / 2 {
        let text = equal_at(alloc, heap, words, 2 * pair + 1, first)?;
        if text != "equal" {
            return Ok(text);
        }
    }
    Ok("equal")
}

/// Answers `equal FORM BYTES FORM BYTES ..`: whether all messages have the same canonical bytes under the default
/// limits.
pub(crate) fn equal_answer(alloc: Global, heap: &Heap, words: &[&str]) -> Result<String> {
    let form = form_at(words, 1)?;
    let bytes = bytes_at(alloc, words, 2)?;
    let text = match canonicalise(heap, form, bytes.as_slice(), Limits::usual()) {
        Ok(first) => equal_each(alloc, heap, words, first.bytes.as_slice())?,
        Err(Refusal::Memory) => MEMORY,
        Err(_) => bail!("refused"),
    };
    Ok(String::from_str(alloc, text)?)
}
