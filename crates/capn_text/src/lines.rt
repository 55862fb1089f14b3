//! Functions that count lines.

ghost use Rattle.std.specs.Prelude.{◌≡◌, ◌+◌, ◌-◌, ◌≤◌, length, take};
ghost use Rattle.capn_text.specs.Streams.{ended_lines};

/// Counts the lines that end within `bytes`. A last line without its newline is not counted. Takes no memory.
#[tactic(auto, using(crate::proofs::LineCounts::lines_within))]
pub fn lines_in(bytes: &[u8]) -> u64
    ensures exact { result ≡ ended_lines bytes.now }
    ensures within { result ≤ length bytes.now }
{
    let mut lines: u64 = 0;
    let mut rest = bytes;
    while let [c, after @ ..] = rest {
        if *c == b'\n' {
            lines += 1;
        }
        rest = after;
    }
    lines
}

/// Counts the lines of `text` that end before its last `left` bytes.
#[tactic(auto, using(crate::proofs::LineCounts::lines_before))]
pub fn lines_before(text: &[u8], left: usize) -> u64
    ensures exact { result ≡ ended_lines (take (length text.now - left) text.now) }
    ensures within { result ≤ ended_lines text.now }
    ensures below { result ≤ length text.now }
{
    lines_in(&text[..text.len().saturating_sub(left)])
}
