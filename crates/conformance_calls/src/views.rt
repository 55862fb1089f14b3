//! The answers for calls on views of a message. Each step that makes a view gives it the next number, from 0 on.

ghost use Rattle.std.specs.Prelude.{◌≡◌, ◌<◌, ◌≤◌, ◌^◌, IfOk};

use crate::frames::limit_at;
use crate::refusals::told;
use anyhow::{Result, anyhow, bail};
use capn_canon::Form;
use capn_stream::first;
use capn_value::Tariff;
use capn_walk::{Fault, Kind, Meter, View};
use capn_words::{Bare, MOST_MESSAGE_WORDS, Space};
use conformance_cases::{Heap, bytes_at, digits_of, form_at, number_at, push_told, word_at};
use std::alloc::Global;

/// Steps from `view` to slot `index` of a struct, or to element `index` of a list of pointers.
fn slot_of<'s, S: Space>(
    view: &View<'s, S>,
    index: u32,
    meter: &mut Meter,
) -> Result<Result<View<'s, S>, Fault>> {
    let links = match view.kind() {
        Kind::Links => view.len(),
        _ => 0,
    };
    if index < links || index < view.slots() as u32 {
        Ok(view.slot(index, meter))
    } else {
        Err(anyhow!("no slot {index}"))
    }
}

/// Returns row `index` of `view`, a list of structs.
fn row_of<'s, S: Space>(view: &View<'s, S>, index: u32) -> Result<View<'s, S>> {
    match view.kind() {
        Kind::Rows if index < view.len() => Ok(view.row(index)),
        _ => Err(anyhow!("no row {index}")),
    }
}

/// Returns data word `index` of `view`, a struct.
fn word_of<S: Space>(view: &View<'_, S>, index: u32) -> Result<u64> {
    if index < view.words() as u32 {
        Ok(view.word(index))
    } else {
        Err(anyhow!("no data word {index}"))
    }
}

/// Returns element `index` of `view`, a list of numbers.
#[tactic(auto, using(crate::proofs::Numbers::numbers_and_others))]
fn number_of<S: Space>(view: &View<'_, S>, index: u32) -> Result<u64> {
    match view.kind() {
        Kind::Bits | Kind::Bytes | Kind::Pairs | Kind::Quads | Kind::Octs if index < view.len() => {
            Ok(view.number(index))
        }
        _ => Err(anyhow!("no number {index}")),
    }
}

/// Returns the view whose number is word `at` of the line `words`.
fn view_at<'v, 's, S: Space>(
    views: &'v [View<'s, S>],
    words: &[&str],
    at: usize,
) -> Result<&'v View<'s, S>> {
    match views.get(number_at(words, at)? as usize) {
        Some(view) => Ok(view),
        None => Err(anyhow!("no such view")),
    }
}

/// Returns as text the price paid so far, after the fault if `step` is one. If `step` is a view, appends it to `views`.
fn step_text<'s, S: Space>(
    alloc: Global,
    step: Result<View<'s, S>, Fault>,
    meter: &Meter,
    views: &mut Vec<View<'s, S>>,
) -> Result<String> {
    let paid = meter.paid();
    match step {
        Ok(view) => {
            views.push(view)?;
            Ok(format!(in alloc; "{paid} paid")?)
        }
        Err(fault) => {
            let name = told(alloc, fault)?;
            Ok(format!(in alloc; "{name} with {paid} paid")?)
        }
    }
}

/// Returns the kind and the sizes of `view` as text, or the index of its capability.
fn shape_text<S: Space>(alloc: Global, view: &View<'_, S>) -> Result<String> {
    let len = view.len();
    let words = view.words();
    let slots = view.slots();
    match view.cap() {
        Some(index) => Ok(format!(in alloc; "capability {index}")?),
        None => {
            let kind = view.kind();
            Ok(format!(in alloc; "{kind:?} {len} {words} {slots}")?)
        }
    }
}

/// Does the step that word `at` of the line names, from the view that the next word names. Returns the answer.
fn step_answer<'s, S: Space>(
    alloc: Global,
    words: &[&str],
    at: usize,
    meter: &mut Meter,
    views: &mut Vec<View<'s, S>>,
) -> Result<String> {
    let view = view_at(views.as_slice(), words, at.saturating_add(1))?;
    let step = word_at(words, at)?;
    let index = match step {
        "bytes" | "shape" => 0,
        _ => number_at(words, at.saturating_add(2))?,
    };
    match step {
        "slot" => {
            let slot = slot_of(view, index, meter)?;
            step_text(alloc, slot, meter, views)
        }
        "row" => {
            let row = row_of(view, index)?;
            step_text(alloc, Ok(row), meter, views)
        }
        "word" => {
            let word = word_of(view, index)?;
            Ok(format!(in alloc; "{word}")?)
        }
        "number" => {
            let number = number_of(view, index)?;
            Ok(format!(in alloc; "{number}")?)
        }
        "bytes" => match view.bytes() {
            Some(bytes) => digits_of(alloc, bytes),
            None => Ok(String::from_str(alloc, "no bytes")?),
        },
        "shape" => shape_text(alloc, view),
        step => bail!("no step {step:?}"),
    }
}

/// Returns the number of words that `step` takes in a line.
fn words_of_step(step: &str) -> usize {
    match step {
        "root" => 1,
        "bytes" | "shape" => 2,
        _ => 3,
    }
}

/// Returns the answers for all steps of a line. The first step must be to the root.
fn steps_text<S: Space>(
    alloc: Global,
    space: &S,
    meter: &mut Meter,
    depth: u32,
    words: &[&str],
) -> Result<String> {
    let mut views = Vec::new(alloc);
    let mut text = String::new(alloc);
    let mut at = 5usize;
    for _ in 0..words.len() {
        if at >= words.len() {
            break;
        }
        let step = word_at(words, at)?;
        let told = match step {
            "root" => {
                let root = View::root(space, meter, depth);
                step_text(alloc, root, meter, &mut views)?
            }
            _ => step_answer(alloc, words, at, meter, &mut views)?,
        };
        push_told(&mut text, told.as_str())?;
        at = at.saturating_add(words_of_step(step));
    }
    Ok(text)
}

/// Answers `view FORM BUDGET DEPTH BYTES STEP ..`, where each step is `root`, `slot VIEW INDEX`, `row VIEW INDEX`,
/// `word VIEW INDEX`, `number VIEW INDEX`, `bytes VIEW` or `shape VIEW`.
pub(crate) fn view_answer(
    alloc: Global,
    heap: &Heap,
    words: &[&str],
    tariff: Tariff,
) -> Result<String> {
    let form = form_at(words, 1)?;
    let mut meter = Meter::with_tariff(limit_at(words, 2)?, tariff);
    let depth = number_at(words, 3)?;
    let bytes = bytes_at(alloc, words, 4)?;
    match form {
        Form::Bare => match Bare::new(bytes.as_slice()) {
            Ok(space) => steps_text(alloc, &space, &mut meter, depth, words),
            Err(_) => Err(anyhow!("no segment")),
        },
        Form::Stream => match first(heap, bytes.as_slice(), MOST_MESSAGE_WORDS) {
            Ok((space, _)) => steps_text(alloc, &space, &mut meter, depth, words),
            Err(fault) => told(alloc, fault),
        },
        Form::Packed => Err(anyhow!("no view is of packed bytes")),
    }
}
