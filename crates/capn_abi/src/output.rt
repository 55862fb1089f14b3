//! The delivery of a call's result into the caller's buffer.

ghost use Rattle.std.specs.Prelude.{◌≡◌, length};
ghost use Rattle.capn_abi.specs.Calls.{Delivers};

use crate::status_codes::{DONE, NO_ROOM};

/// Writes `answer` at the start of `out`, and returns `DONE`. If `out` is too short, writes nothing and returns
/// `NO_ROOM`.
pub fn deliver(answer: &[u8], out: &mut [u8]) -> u32
    ensures { Delivers answer.now result (length answer.now) out.old out.new }
{
    if answer.len() > out.len() {
        return NO_ROOM;
    }
    out[..answer.len()].copy_from_slice(answer);
    DONE
}
