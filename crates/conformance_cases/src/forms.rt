//! `form_at`: the form that a case names.

ghost use Rattle.std.specs.Prelude.{◌≡◌, HoldsAt, IfOk};
ghost use Rattle.conformance_cases.specs.Cases as spec;

use crate::words::word_at;
use anyhow::{Result, bail};
use capn_canon::Form;

/// Reads the form at word `at` of the line `words`.
pub fn form_at(words: &[&str], at: usize) -> Result<Form>
    ensures { IfOk result (λ form. HoldsAt (λ it. it.now ≡ spec.form_word form) words.now at) }
{
    match word_at(words, at)? {
        "stream" => Ok(Form::Stream),
        "packed" => Ok(Form::Packed),
        "bare" => Ok(Form::Bare),
        form => bail!("no form {form:?}"),
    }
}
