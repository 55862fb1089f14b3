//! `measure`: prints the shortest times of the operations in `Operation::ALL`, and of `check`.

use crate::operations::{Input, Operation};
use crate::shapes::{Shape, framed};
use anyhow::Result;
use std::alloc::Global;
use std::time::{Clock, Instant};

/// The sizes of the measured messages, in bytes.
const SIZES: [u32; 4] = [1 << 10, 1 << 16, 1 << 20, 1 << 24];

/// The number of messages in the stream of small ones.
const MESSAGES: u32 = 1 << 20;

/// Returns the time of one unit in thousandths of a nanosecond, if `units` units take `nanoseconds`.
fn per_unit(nanoseconds: u128, units: usize) -> u64 {
    let thousandths = nanoseconds.saturating_mul(1000) / (units.max(1) as u128);
    u64::try_from(thousandths).unwrap_or(u64::MAX)
}

/// Returns the time of `steps` steps of an operation, in thousandths of a nanosecond for each byte.
fn timed<R: Clock>(
    rt: &R,
    alloc: Global,
    operation: Operation,
    input: &Input,
    steps: usize,
) -> Result<u64> {
    let start = Instant::now(rt)?;
    for _ in 0..steps {
        input.perform(alloc, operation)?;
    }
    let units = input.size.saturating_mul(steps);
    Ok(per_unit(start.elapsed(rt)?.as_nanos(), units))
}

/// Returns the shortest of several times of an operation on an input of about `bytes` bytes. A time for a small input
/// covers many steps, so that the clock's own time hardly counts.
fn least_of<R: Clock>(
    rt: &R,
    alloc: Global,
    operation: Operation,
    input: &Input,
    bytes: u32,
) -> Result<u64> {
    let steps = ((1 << 17) / bytes.max(1)).max(1) as usize;
    let rounds = if bytes > 1 << 22 { 2 } else { 8 };
    let mut least = u64::MAX;
    for _ in 0..rounds {
        least = least.min(timed(rt, alloc, operation, input, steps)?);
    }
    Ok(least)
}

/// Returns the shortest of several times of an operation on a message of `shape`.
fn shortest<R: Clock>(
    rt: &R,
    alloc: Global,
    operation: Operation,
    shape: Shape,
    bytes: u32,
) -> Result<u64> {
    let input = Input::new(alloc, operation, framed(alloc, shape, bytes)?)?;
    let least = least_of(rt, alloc, operation, &input, bytes);
    drop(input);
    least
}

fn print_names(rt: &impl Print) -> Result<()> {
    for operation in Operation::ALL {
        print!(rt; " {:>12}", operation.name())?;
    }
    println!(rt; "")?;
    Ok(())
}

/// Prints the times of one shape at one size.
fn print_shape<R: Print + Clock>(rt: &R, alloc: Global, shape: Shape, bytes: u32) -> Result<()> {
    print!(rt; "{:>8}", shape.name())?;
    for operation in Operation::ALL {
        let time = shortest(rt, alloc, operation, shape, bytes)?;
        print!(rt; " {:>8}.{:03}", time / 1000, time % 1000)?;
    }
    println!(rt; "")?;
    Ok(())
}

fn print_size<R: Print + Clock>(rt: &R, alloc: Global, bytes: u32) -> Result<()> {
    print!(rt; "{:>8}", bytes)?;
    print_names(rt)?;
    for shape in Shape::MESSAGES {
        print_shape(rt, alloc, shape, bytes)?;
    }
    Ok(())
}

/// Prints the time of `check` for one message in a stream of small ones.
fn print_small<R: Print + Clock>(rt: &R, alloc: Global) -> Result<()> {
    let bytes = MESSAGES * 32;
    let time = shortest(rt, alloc, Operation::Check, Shape::Small, bytes)?.saturating_mul(32);
    println!(rt;
        "check of messages of 32 bytes: {}.{:03} ns a message",
        time / 1000,
        time % 1000
    )?;
    Ok(())
}

/// Prints the shortest times of `Operation::ALL` on each shape at each size, and of `check` on small messages.
pub(crate) fn measure<R: Print + Clock>(rt: &R, alloc: Global) -> Result<()> {
    for bytes in SIZES {
        print_size(rt, alloc, bytes)?;
    }
    print_small(rt, alloc)
}
