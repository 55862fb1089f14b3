//! The trait `AskedBytes`, bytes on which one task can be run, and whose reads are counted.
//!
//! A call that gets [`AskedBytes`] can run only one task on the bytes, since they are moved. The task, a [`BytesTask`],
//! gets the bytes as [`CountedBytes`] and the scratch as [`CountedScratch`], and counts at most the stated number of
//! steps. A call can have the condition `requires work { B.allows bytes n }`. The body of the call is then proved for
//! all bytes that allow `n` steps, including bytes that allow no more. So the condition bounds the call's work. A slice
//! allows any number of steps, so callers have nothing to prove.

ghost use Rattle.std.specs.Prelude.{◌≡◌, ℕ, ◌+◌, ◌<◌, ◌≤◌, List, length};

use crate::counted_bytes::CountedBytes;
use crate::counted_scratch::CountedScratch;
use crate::steps::Steps;
use std::marker::Brand;
use std::sync::ledger::{Blank, Ledger};

/// A task on bytes whose reads are counted, on scratch whose writes are counted, and on a buffer.
pub trait BytesTask {
    /// The type of the task's result.
    type Told;

    /// The relation between the bytes, the number of words of the scratch, the buffer before and after the task, and
    /// the result of the task.
    ghost tells: { Self → List ℕ → ℕ → List ℕ → List ℕ → Self.Told → Type 0 };

    /// The greatest number of steps that the task counts, for the given number of bytes and of words of scratch.
    ghost most: { Self → ℕ → ℕ → ℕ };

    /// Runs the task on `bytes`, `scratch` and `out`, and counts the steps in `steps`.
    fn run<L: Ledger>(
        self,
        bytes: CountedBytes<'_, L>,
        scratch: CountedScratch<'_, L>,
        out: &mut [u8],
        steps: &mut Steps<L>,
    ) -> Self::Told
        ensures told { tells self bytes.entry (length scratch.entry) out.old out.new result }
        ensures work { steps.new ≤ steps.old + most self (length bytes.entry) (length scratch.entry) };
}

/// Bytes on which one task can be run.
pub trait AskedBytes {
    /// The bytes, as numbers below 256.
    ghost bytes: { Self → List ℕ };

    /// The condition that the given number of steps is allowed.
    ghost allows: { Self → ℕ → Type 0 };

    /// Runs `task` on `scratch` and `out` with a new count. The bytes have to allow the `most` of `task`.
    fn ask_bytes<T: BytesTask>(self, task: T, scratch: &mut [[u8; 8]], out: &mut [u8]) -> T::Told
        requires { allows self (T.most task (length (bytes self)) (length scratch.old)) }
        ensures { T.tells task (bytes self) (length scratch.old) out.old out.new result };
}

impl<'s> AskedBytes for &'s [u8] {
    ghost use Rattle.std.specs.Prelude.{⊤};

    ghost bytes = { λ b. b.now };

    ghost allows = { λ _ _. ⊤ };

    #[inline(always)]
    fn ask_bytes<T: BytesTask>(self, task: T, scratch: &mut [[u8; 8]], out: &mut [u8]) -> T::Told {
        run_counted(self, task, scratch, out)
    }
}

/// Runs `task` on `bytes`, `scratch` and `out` with a new count.
#[inline(always)]
fn run_counted<T: BytesTask>(
    bytes: &[u8],
    task: T,
    scratch: &mut [[u8; 8]],
    out: &mut [u8],
) -> T::Told
    ensures { T.tells task bytes.now (length scratch.old) out.old out.new result }
{
    run_with_ledger::<T, Brand>(bytes, task, scratch, out, Blank::new(1))
}

/// Runs `task` on `bytes`, `scratch` and `out` with a count in the new ledger `blank`.
#[inline(always)]
fn run_with_ledger<T: BytesTask, L: Ledger>(
    bytes: &[u8],
    task: T,
    scratch: &mut [[u8; 8]],
    out: &mut [u8],
    blank: Blank,
) -> T::Told
    requires name { blank.name ≡ L.name }
    requires parts { blank.parts ≡ L.parts }
    requires one { 0 < blank.parts }
    ensures { T.tells task bytes.now (length scratch.old) out.old out.new result }
{
    let mut steps = Steps::<L>::begin(blank);
    task.run(
        CountedBytes::of(bytes),
        CountedScratch::of(scratch),
        out,
        &mut steps,
    )
}
