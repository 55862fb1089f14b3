//! Measurements of the libraries on messages of nine shapes, which a fixed generator makes.
//!
//! - Without arguments: prints the digest of a small message of each shape, and whether the operations agree on it.
//! - `times`: prints the shortest times of 14 operations on each shape at four sizes, in nanoseconds a byte, and of
//!   `check` on a stream of small messages, in nanoseconds a message.
//! - `count OPERATION SHAPE STEPS [BYTES]`: does an operation `STEPS` times on about `BYTES` bytes of one shape, or on
//!   1 MiB. Prints the number of bytes by which the cost of a step is divided, and the sum of the results. A tool that
//!   counts the instructions of two runs with different `STEPS` finds the cost of a step.
//! - `write SHAPE BYTES`: writes about `BYTES` bytes of one shape to standard output, framed.
#![tactic(auto)]

mod agreeing;
mod calls;
mod counting;
mod operations;
mod shapes;
mod times;

use crate::operations::Operation;
use crate::shapes::{Shape, framed};
use anyhow::{Context, Result, bail};
use std::alloc::Global;
use std::env;

fn operation_of(word: Option<&String>) -> Result<Operation> {
    word.and_then(|name| Operation::named(name.as_str()))
        .context("no such operation")
}

fn shape_of(word: Option<&String>) -> Result<Shape> {
    word.and_then(|name| Shape::named(name.as_str()))
        .context("no such shape")
}

fn number_of(word: Option<&String>) -> Result<u32> {
    word.and_then(|text| text.parse::<u32>().ok())
        .context("no number")
}

/// Carries out `count OPERATION SHAPE STEPS [BYTES]`.
fn count(rt: &impl Print, alloc: Global, words: &[String]) -> Result<()> {
    let operation = operation_of(words.get(2))?;
    let shape = shape_of(words.get(3))?;
    let steps = number_of(words.get(4))?;
    let bytes = if words.len() > 5 {
        number_of(words.get(5))?
    } else {
        1 << 20
    };
    counting::count(rt, alloc, operation, shape, steps, bytes)
}

/// Carries out `write SHAPE BYTES`.
fn write(rt: &impl Print, alloc: Global, words: &[String]) -> Result<()> {
    let shape = shape_of(words.get(2))?;
    let bytes = number_of(words.get(3))?;
    rt.write_all(&framed(alloc, shape, bytes)?)?;
    Ok(())
}

fn main(rt: HostRuntime) -> Result<()> {
    let alloc = rt.alloc();
    let words: Vec<String> = env::args(&rt)?.collect(alloc)?;
    match words.get(1) {
        None => agreeing::agree(&rt, alloc),
        Some(word) => match word.as_str() {
            "times" => times::measure(&rt, alloc),
            "count" => count(&rt, alloc, &words),
            "write" => write(&rt, alloc, &words),
            _ => bail!("no such word"),
        },
    }
}
