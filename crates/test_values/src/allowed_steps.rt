//! A test of canonical bytes in each form, from bytes that allow exactly the steps that the call requires.

ghost use Rattle.std.specs.Prelude.{◌≤◌, length};
ghost use Rattle.capn_scratch.specs.Work.{work_of_bytes};

use crate::scratch_forms::{MOST, WRITTEN, frame};
use capn_canon::Form;
use capn_pack::pack;
use capn_scratch::{AskedBytes, BytesTask, FormRefusal, canonical_into_form_of};
use capn_walk::Limits;
use std::test::Fail;

/// Bytes that allow at most `steps` steps.
#[derive(Drop)]
struct Allowance<'s> {
    bytes: &'s [u8],
    steps: u64,
}

impl<'s> AskedBytes for Allowance<'s> {
    ghost use Rattle.std.specs.Prelude.{◌≤◌};

    ghost bytes = { λ a. a.bytes.now };

    ghost allows = { λ a n. n ≤ a.steps };

    fn ask_bytes<T: BytesTask>(self, task: T, scratch: &mut [[u8; 8]], out: &mut [u8]) -> T::Told {
        self.bytes.ask_bytes(task, scratch, out)
    }
}

/// Returns the result for `bytes` that allow exactly the steps that `canonical_into_form_of` requires. With one step
/// fewer, this function is not proved.
fn answer_within(
    form: Form,
    bytes: &[u8],
    limits: Limits,
    out: &mut [u8],
) -> Result<usize, FormRefusal>
    requires { length bytes.now ≤ 1024 }
{
    let mut scratch = [[0xaa; 8]; MOST];
    let steps = 3 * bytes.len() as u64 + 22 * MOST as u64 + 54 * (limits.budget() as u64 + 1) + 4;
    let written = canonical_into_form_of(
        form,
        Allowance { bytes, steps },
        limits,
        &mut scratch,
        out,
    )?;
    Ok(written.length)
}

#[test]
fn bytes_that_allow_just_enough_steps_are_answered(rt: HostRuntime) -> Result<(), Fail> {
    let limits = Limits::usual();
    let bytes = frame(rt.alloc(), 1)?;
    let Ok(text) = pack(rt.alloc(), bytes.as_slice()) else {
        return Err(Fail::new("not packed"));
    };
    let forms = [
        (Form::Bare, &WRITTEN[..16]),
        (Form::Stream, bytes.as_slice()),
        (Form::Packed, text.as_slice()),
    ];
    for (form, bytes) in forms {
        if bytes.len() > 1024 {
            return Err(Fail::new("too many bytes"));
        }
        let mut out = [0xbb; 24];
        let told = answer_within(form, bytes, limits, &mut out);
        assert_eq!(rt; told, Ok(16));
        assert_eq!(rt; out, WRITTEN);
    }
    Ok(())
}
