//! Tests of lines that are built in place, of the exit statuses of runs, and of the set of digests.

use capn_digests::DigestSet;
use capn_serve::{Line, NumberLine, RunFault, status};
use capn_words::Watched;
use std::alloc::Global;
use std::process::Abort;
use std::test::Fail;

/// Returns the text that the parts of a line make, after `before` bytes of `x`. A line that is longer than its buffer
/// has the same text.
fn written(alloc: Global, before: usize) -> Result<Vec<u8>, Fail> {
    let mut line = Line::new();
    let mut errors = Watched::new(Vec::new(alloc));
    let mut filling = Vec::new(alloc);
    filling.resize(before, b'x')?;
    line.put(filling.as_slice(), &mut errors);
    line.put_named(b"words ", 40, &mut errors);
    line.put_between(b" (at ", u64::MAX, b"): ", &mut errors);
    line.put_number(0, &mut errors);
    line.put(b", ", &mut errors);
    line.put_memory(&mut errors);
    line.send(&mut errors);
    Ok(errors.into_inner())
}

#[test]
fn a_line_of_any_length(rt: HostRuntime) -> Result<(), Fail> {
    let want = b"words 40 (at 18446744073709551615): 0, out of memory".as_slice();
    for before in [0, 200, 250, 256, 300] {
        let text = written(rt.alloc(), before)?;
        assert!(rt; text.len() == before + want.len());
        assert!(rt; &text[before..] == want);
    }
    Ok(())
}

/// A line with numbers is built from its end to its beginning.
#[test]
fn a_line_from_its_end(rt: HostRuntime) {
    let mut line: NumberLine<64> = NumberLine::new();
    assert!(rt; line.as_bytes().is_empty());
    line.put(b"\n");
    line.put_named(b" of ", 18_446_744_073_709_551_615);
    line.put_number(7);
    line.put(b"message ");
    assert!(rt; line.as_bytes() == b"message 7 of 18446744073709551615\n".as_slice());
}

#[test]
fn statuses_of_runs(rt: HostRuntime) {
    let done: Result<(), RunFault> = Ok(());
    assert!(rt; status(&done) == 0);
    assert!(rt; status(&Err(RunFault::Memory)) == 3);
    assert!(rt; status(&Err(RunFault::Io)) == 3);
}

/// Returns the digest whose bytes are all `byte`.
fn digest(byte: u8) -> [u8; 32] {
    [byte; 32]
}

#[test]
fn digests_that_a_set_has(rt: HostRuntime) -> Result<(), Fail> {
    let mut digests = DigestSet::new(rt.alloc());
    assert!(rt; !digests.contains(&digest(1)));
    for byte in 0..100 {
        digests.insert(digest(byte))?;
    }
    for byte in 0..=255 {
        assert!(rt; digests.contains(&digest(byte)) == (byte < 100));
    }
    Ok(())
}
