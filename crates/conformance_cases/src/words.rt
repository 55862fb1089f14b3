//! The words of a case, read as text, numbers and bytes, and the text of its answer.

ghost use Rattle.std.specs.Prelude.{◌≡◌, ◌↔◌, ◌<◌, length, HoldsAt, IfOk, IsOk, OnOk, string_bytes};
ghost use Rattle.conformance_cases.specs.Cases as spec;

use anyhow::{Result, anyhow};
use std::alloc::Global;

/// Returns word `at` of the line `words`.
pub fn word_at<'a>(words: &[&'a str], at: usize) -> Result<&'a str>
    ensures found { IfOk result (λ word. HoldsAt (λ it. it.now ≡ word.now) words.now at) }
    ensures only { IsOk result ↔ (at < length words.now) }
{
    match words.get(at) {
        Some(word) => Ok(*word),
        None => Err(anyhow!("no word {at}")),
    }
}

/// Reads the number at word `at` of the line `words`.
pub fn number_at(words: &[&str], at: usize) -> Result<u32>
    ensures { IfOk result (λ number. HoldsAt (λ it. spec.IsNumber it.now number) words.now at) }
{
    Ok(word_at(words, at)?.parse::<u32>()?)
}

/// Reads the bytes at word `at` of the line `words`.
pub fn bytes_at(alloc: Global, words: &[&str], at: usize) -> Result<Vec<u8>>
    ensures { IfOk result (λ bytes. HoldsAt (λ it. spec.AreBytes it.now bytes.items) words.now at) }
{
    let digits = word_at(words, at)?;
    if digits == "-" {
        return Ok(Vec::new(alloc));
    }
    Ok(hex::decode(alloc, digits)?)
}

/// Returns `bytes` as they are written in a case.
pub fn digits_of(alloc: Global, bytes: &[u8]) -> Result<String>
    ensures { IfOk result (λ text. string_bytes text ≡ spec.digits_of bytes.now) }
{
    if bytes.is_empty() {
        return Ok(String::from_str(alloc, "-")?);
    }
    Ok(hex::encode(alloc, bytes)?)
}

/// Appends `told`, the text of one step of a case, to `text`.
pub fn push_told(text: &mut String, told: &str) -> Result<()>
    ensures { OnOk result (string_bytes text.new ≡ spec.told_after (string_bytes text.old) told.now) }
{
    if !text.is_empty() {
        text.push_str(", ")?;
    }
    text.push_str(told)?;
    Ok(())
}
