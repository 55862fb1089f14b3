//! Runs for an instruction counter.

use crate::operations::{Input, Operation};
use crate::shapes::{Shape, framed};
use anyhow::Result;
use std::alloc::Global;

/// Does `operation` `steps` times. Returns the sum of the numbers that the steps return, so that the compiler cannot
/// leave a step out.
fn repeated(alloc: Global, operation: Operation, input: &Input, steps: u32) -> Result<usize> {
    let mut sum = 0usize;
    for _ in 0..steps {
        sum = sum.wrapping_add(input.perform(alloc, operation)?);
    }
    Ok(sum)
}

/// Makes the input of `operation`, and does the operation `steps` times. Prints the number of bytes by which the cost
/// is divided, and the sum of the results.
pub(crate) fn count(
    rt: &impl Print,
    alloc: Global,
    operation: Operation,
    shape: Shape,
    steps: u32,
    bytes: u32,
) -> Result<()> {
    let input = Input::new(alloc, operation, framed(alloc, shape, bytes)?)?;
    let size = input.size;
    let sum = repeated(alloc, operation, &input, steps);
    // One call of `drop` is cheaper for the prover than fields that are dropped one by one.
    drop(input);
    let sum = sum?;
    println!(rt; "{size} {sum}")?;
    Ok(())
}
