//! Tests of the lines that the program writes for faults.

use crate::broken::Short;
use capn_serve::{Line, end};
use capn_tool::{
    ArchiveFault, FlowFault, MakeFault, Position, Refusal, RunFault, SkipFault, Skipped, Watched,
};
use std::io::{self, Write};
use std::process::Abort;

/// The position of the last message that a run can have.
const LAST: Position = Position {
    index: u64::MAX,
    offset: u64::MAX,
};

/// The greatest count of skipped messages.
const SKIPPED: Skipped = Skipped {
    refused: u64::MAX,
    messages: u64::MAX,
    first: LAST,
};

/// The line of a run that skipped `SKIPPED`.
const SKIPPED_LINE: &str = "capn: 18446744073709551615 of 18446744073709551615 messages refused, \
    the first is 18446744073709551616 at 18446744073709551615\n";

/// The fault of a run that skipped `SKIPPED`, and then met a refused frame.
const REFUSED_AFTER: SkipFault = SkipFault::RefusedAfterSkipped(
    SKIPPED,
    LAST,
    Refusal::Trailing(u64::MAX),
);

/// The two lines for `REFUSED_AFTER`.
const TWO_LINES: &str = "capn: 18446744073709551615 of 18446744073709551615 messages refused, \
    the first is 18446744073709551616 at 18446744073709551615\n\
    capn: message 18446744073709551616 at 18446744073709551615: \
    trailing bytes at 18446744073709551615\n";

/// A writer that counts its calls.
#[derive(Drop)]
struct Counted {
    bytes: Vec<u8>,
    calls: u64,
}

impl Write for Counted {
    fn write(&mut self, buf: &[u8]) -> io::Result<usize> {
        self.bytes.extend_from_slice(buf)?;
        self.calls = self.calls.saturating_add(1);
        Ok(buf.len())
    }

    fn flush(&mut self) -> io::Result<()> {
        Ok(())
    }
}

#[test]
fn a_run_over_texts_ends_with_its_line(rt: HostRuntime) {
    for (outcome, status, line) in [
        (Ok(()), 0, ""),
        (Err(MakeFault::NoText), 1, "capn: line 1: no text\n"),
        (Err(MakeFault::Io), 3, "capn: input or output failed\n"),
        (
            Err(MakeFault::Capability(u64::MAX, u32::MAX)),
            1,
            "capn: line 18446744073709551615: capability 4294967295\n",
        ),
    ] {
        let mut errors = Watched::new(Vec::new(rt.alloc()));
        assert!(rt; end(&outcome, &mut errors) == status, "{line}");
        assert!(rt; errors.into_inner().as_slice() == line.as_bytes(), "{line}");
    }
}

#[test]
fn a_run_over_bytes_ends_with_its_line(rt: HostRuntime) {
    for (outcome, status, line) in [
        (Ok(()), 0, ""),
        (Err(FlowFault::InputTooLong), 3, "capn: input too long\n"),
        (
            Err(FlowFault::NotWhole(u64::MAX)),
            1,
            "capn: NotWhole(18446744073709551615)\n",
        ),
        (
            Err(FlowFault::Cut(u64::MAX)),
            1,
            "capn: packed: Cut at 18446744073709551615\n",
        ),
    ] {
        let mut errors = Watched::new(Vec::new(rt.alloc()));
        assert!(rt; end(&outcome, &mut errors) == status, "{line}");
        assert!(rt; errors.into_inner().as_slice() == line.as_bytes(), "{line}");
    }
}

#[test]
fn a_run_over_an_archive_ends_with_its_line(rt: HostRuntime) {
    for (outcome, status, line) in [
        (Ok(()), 0, ""),
        (
            Err(ArchiveFault::Ended(SkipFault::Skipped(SKIPPED))),
            1,
            SKIPPED_LINE,
        ),
        (Err(ArchiveFault::Ended(REFUSED_AFTER)), 1, TWO_LINES),
        (
            Err(ArchiveFault::NotCanonical(LAST)),
            1,
            "capn: message 18446744073709551616 at 18446744073709551615: not canonical\n",
        ),
    ] {
        let mut errors = Watched::new(Vec::new(rt.alloc()));
        assert!(rt; end(&outcome, &mut errors) == status, "{line}");
        assert!(rt; errors.into_inner().as_slice() == line.as_bytes(), "{line}");
    }
}

#[test]
fn a_run_that_explains_every_refused_message_ends_with_its_line(rt: HostRuntime) {
    let picked = RunFault::Refused(LAST, Refusal::Capability(u32::MAX));
    for (outcome, status, line) in [
        (Ok(()), 0, ""),
        (Err(SkipFault::Skipped(SKIPPED)), 1, SKIPPED_LINE),
        (
            Err(SkipFault::Ended(picked)),
            1,
            "capn: message 18446744073709551616 at 18446744073709551615: capability 4294967295\n",
        ),
        (
            Err(SkipFault::Ended(RunFault::Memory)),
            3,
            "capn: out of memory\n",
        ),
        (Err(REFUSED_AFTER), 1, TWO_LINES),
    ] {
        let mut errors = Watched::new(Vec::new(rt.alloc()));
        assert!(rt; end(&outcome, &mut errors) == status, "{line}");
        assert!(rt; errors.into_inner().as_slice() == line.as_bytes(), "{line}");
    }
}

#[test]
fn a_run_that_picks_ends_with_its_line(rt: HostRuntime) {
    for (outcome, status, line) in [
        (Ok(()), 0, ""),
        (
            Err(RunFault::Refused(LAST, Refusal::Capability(u32::MAX))),
            1,
            "capn: message 18446744073709551616 at 18446744073709551615: capability 4294967295\n",
        ),
    ] {
        let mut errors = Watched::new(Vec::new(rt.alloc()));
        assert!(rt; end(&outcome, &mut errors) == status, "{line}");
        assert!(rt; errors.into_inner().as_slice() == line.as_bytes(), "{line}");
    }
}

#[test]
fn lines_of_faults(rt: HostRuntime) {
    let first = Position {
        index: 2,
        offset: 40,
    };
    let skipped = Skipped {
        refused: 3,
        messages: 12,
        first,
    };
    for (fault, want) in [
        (
            ArchiveFault::Ended(SkipFault::Ended(RunFault::Memory)),
            "capn: out of memory\n",
        ),
        (
            ArchiveFault::Ended(SkipFault::Ended(RunFault::Io)),
            "capn: input or output failed\n",
        ),
        (
            ArchiveFault::Ended(SkipFault::Ended(RunFault::InputTooLong)),
            "capn: input too long\n",
        ),
        (
            ArchiveFault::Ended(SkipFault::Ended(RunFault::Refused(first, Refusal::Capability(2)))),
            "capn: message 3 at 40: capability 2\n",
        ),
        (
            ArchiveFault::NotCanonical(first),
            "capn: message 3 at 40: not canonical\n",
        ),
        (
            ArchiveFault::Ended(SkipFault::Skipped(skipped)),
            "capn: 3 of 12 messages refused, the first is 3 at 40\n",
        ),
        (
            ArchiveFault::Ended(SkipFault::RefusedAfterSkipped(
                skipped,
                LAST,
                Refusal::Trailing(6),
            )),
            "capn: 3 of 12 messages refused, the first is 3 at 40\n\
            capn: message 18446744073709551616 at 18446744073709551615: trailing bytes at 6\n",
        ),
    ] {
        let mut errors = Watched::new(Vec::new(rt.alloc()));
        end(&Err(fault), &mut errors);
        assert!(rt; errors.into_inner().as_slice() == want.as_bytes(), "{want}");
    }
}

#[test]
fn the_longest_lines_are_whole(rt: HostRuntime) {
    let mut errors = Watched::new(Vec::new(rt.alloc()));
    assert!(rt; end(&Err(SkipFault::Skipped(SKIPPED)), &mut errors) == 1);
    assert!(rt; errors.into_inner().as_slice() == SKIPPED_LINE.as_bytes());
    let mut errors = Watched::new(Vec::new(rt.alloc()));
    let fault = RunFault::Refused(LAST, Refusal::Capability(u32::MAX));
    let line =
        b"capn: message 18446744073709551616 at 18446744073709551615: capability 4294967295\n";
    assert!(rt; end(&Err(fault), &mut errors) == 1);
    assert!(rt; errors.into_inner().as_slice() == line.as_slice());
    let mut errors = Watched::new(Vec::new(rt.alloc()));
    let line = b"capn: packed: Cut at 18446744073709551615\n";
    assert!(rt; end(&Err(FlowFault::Cut(u64::MAX)), &mut errors) == 1);
    assert!(rt; errors.into_inner().as_slice() == line.as_slice());
    let mut errors = Watched::new(Vec::new(rt.alloc()));
    let line = b"capn: line 18446744073709551615: another text\n";
    assert!(rt; end(&Err(MakeFault::Another(u64::MAX)), &mut errors) == 1);
    assert!(rt; errors.into_inner().as_slice() == line.as_slice());
}

#[test]
fn a_beginning_of_the_lines_stays_where_the_errors_fail(rt: HostRuntime) {
    for (fault, lines) in [
        (SkipFault::Skipped(SKIPPED), SKIPPED_LINE),
        (REFUSED_AFTER, TWO_LINES),
    ] {
        let lines = lines.as_bytes();
        for room in 0..lines.len() {
            let mut errors = Watched::new(Short {
                bytes: Vec::new(rt.alloc()),
                room,
            });
            let status = end(&Err(fault), &mut errors);
            assert!(rt; status == 1 && errors.failed(), "{room}");
            assert!(rt;
                errors.into_inner().bytes.as_slice() == &lines[..room],
                "{room}"
            );
        }
    }
}

#[test]
fn the_lines_are_one_write(rt: HostRuntime) {
    for (fault, lines) in [
        (SkipFault::Skipped(SKIPPED), SKIPPED_LINE),
        (REFUSED_AFTER, TWO_LINES),
    ] {
        let mut errors = Watched::new(Counted {
            bytes: Vec::new(rt.alloc()),
            calls: 0,
        });
        let status = end(&Err(fault), &mut errors);
        let counted = errors.into_inner();
        assert!(rt; status == 1 && counted.calls == 1);
        assert!(rt; counted.bytes.as_slice() == lines.as_bytes());
    }
}

#[test]
fn a_line_may_be_longer_than_what_is_held_back(rt: HostRuntime) {
    let long = [b'-'; 300];
    let mut errors = Watched::new(Counted {
        bytes: Vec::new(rt.alloc()),
        calls: 0,
    });
    let mut want = Vec::new(rt.alloc());
    let mut line = Line::new();
    for _ in 0..26 {
        line.put(b"0123456789", &mut errors);
        want.extend_from_slice(b"0123456789").expect(&rt, "memory");
    }
    line.put(&long, &mut errors);
    want.extend_from_slice(&long).expect(&rt, "memory");
    line.put_number(7, &mut errors);
    want.push(b'7').expect(&rt, "memory");
    line.send(&mut errors);
    let said = errors.into_inner();
    // The four calls write the full block, the rest of the text that did not fit into it, the long text, and the end.
    assert!(rt; said.calls == 4);
    assert!(rt; said.bytes.as_slice() == want.as_slice());
}
