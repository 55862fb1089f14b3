//! Tests whether an unfinished text has to be parsed again. The test looks for the line `end` in the bytes that were
//! added.

ghost use Rattle.std.specs.Prelude.{◌≡◌, ◌≤◌, ◌*◌, ◌-◌, ◌⊎◌, length, drop, true, false};
ghost use Rattle.capn_text.specs.Streams.{end_line};
ghost use Rattle.capn_make.specs.inner.RunParts as spec;
ghost use Rattle.capn_make.specs.inner.RunParts.{begins_with};

/// Returns `true` if `bytes` begin with the line `end`.
fn begins_with_end(bytes: &[u8]) -> bool
    ensures { result ≡ begins_with end_line bytes.now }
{
    let end = *b"end\n";
    let mut rest = bytes;
    let mut left = end.as_slice();
    while let [c, others @ ..] = left {
        let [d, after @ ..] = rest else {
            return false;
        };
        if *c != *d {
            return false;
        }
        left = others;
        rest = after;
    }
    true
}

/// Returns `true` if `bytes` contain the line `end` at any place, even within a line.
fn holds_end(bytes: &[u8]) -> bool
    ensures { result ≡ spec.holds_end bytes.now }
{
    let mut rest = bytes;
    while let [_, after @ ..] = rest {
        if begins_with_end(rest) {
            return true;
        }
        rest = after;
    }
    false
}

/// Returns `true` if `rest`, the bytes of an input that have no message yet, has to be parsed again. The reason is that
/// a line `end` may end after the first `before` bytes of `rest`, or that `rest` has at least four times `tested`
/// bytes. `tested` is the length that `rest` had when it was last parsed.
pub(crate) fn is_due(rest: &[u8], before: usize, tested: usize) -> bool
    requires { before ≤ length rest.now }
    ensures due { result ≡ true
        → (4 * tested ≤ length rest.now) ⊎ (spec.holds_end (drop (before - 3) rest.now) ≡ true) }
    ensures few { result ≡ false → length rest.now ≤ 4 * tested }
    ensures none { result ≡ false → spec.holds_end (drop (before - 3) rest.now) ≡ false }
{
    tested <= rest.len() / 4 || holds_end(&rest[before.saturating_sub(3)..])
}
