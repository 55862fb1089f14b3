//! Tests of endless inputs that are refused. Little is read after the bytes that decide.

use capn_make::{Form, MakeFault, Misfit, Watched, make};
use std::alloc::Global;
use std::io::{self, Read};

/// A reader that gives `text`, and then `again` over and over, at most `most` bytes a call. It ends after a million
/// bytes, more than a run may read.
#[derive(Drop)]
struct Endless<'a> {
    text: &'a [u8],
    again: &'a [u8],
    most: usize,
    given: usize,
}

impl Read for Endless<'_> {
    fn read(&mut self, buf: &mut [u8]) -> io::Result<usize> {
        if self.text.is_empty() {
            self.text = self.again;
        }
        if self.given > 1_000_000 {
            return Ok(0);
        }
        let len = self.text.len().min(buf.len()).min(self.most);
        buf[..len].copy_from_slice(&self.text[..len]);
        self.text = &self.text[len..];
        self.given = self.given.saturating_add(len);
        Ok(len)
    }
}

/// Returns the result of a run over `text` and endless copies of `again`, and the number of bytes that the run read.
fn run(
    alloc: Global,
    form: Form,
    text: &[u8],
    again: &[u8],
    most: usize,
) -> (Result<(), MakeFault>, usize) {
    let mut reader = Watched::new(Endless {
        text,
        again,
        most,
        given: 0,
    });
    let mut writer = Watched::new(Vec::new(alloc));
    let outcome = make(alloc, form, &mut reader, &mut writer);
    let _ = writer.into_inner();
    (outcome, reader.into_inner().given)
}

const CAPABILITY: &[u8] = b"pointers 1\n  capability 7\nend\n";

/// Inputs that are refused: the form, the first bytes, the bytes repeated after them, the reason, and the number of
/// bytes that decide.
const REFUSED: [(Form, &[u8], &[u8], MakeFault, usize); 9] = [
    (Form::Stream, b"", b"y\n", MakeFault::NotText(1), 2),
    (Form::Packed, b"", b"y\n", MakeFault::NotText(1), 2),
    (Form::Bare, b"", b"y\n", MakeFault::NotText(1), 2),
    (
        Form::Stream,
        b"struct 1 0\n",
        b"y\n",
        MakeFault::NotText(2),
        13,
    ),
    (
        Form::Packed,
        b"null\nend\n",
        b"null\nEnd\n",
        MakeFault::NotText(4),
        18,
    ),
    (
        Form::Stream,
        b"null\nend\n",
        CAPABILITY,
        MakeFault::Capability(3, 7),
        39,
    ),
    (
        Form::Stream,
        b"",
        b"void 536870912\nend\n",
        MakeFault::Misfit(1, Misfit::Long),
        19,
    ),
    (Form::Bare, b"", b"null\nend\n", MakeFault::Another(3), 14),
    (
        Form::Bare,
        b"null\nend\n",
        b"y\n",
        MakeFault::NotText(3),
        11,
    ),
];

#[test]
fn without_end(rt: HostRuntime) {
    for (form, text, again, fault, enough) in REFUSED {
        let (outcome, taken) = run(rt.alloc(), form, text, again, 65_536);
        assert!(rt; outcome == Err(fault), "{fault}");
        assert!(rt; taken <= 4 * enough + 65_536, "{taken}");
    }
}

#[test]
fn one_byte_a_call(rt: HostRuntime) {
    for (form, text, again, fault, enough) in REFUSED {
        let (outcome, taken) = run(rt.alloc(), form, text, again, 1);
        assert!(rt; outcome == Err(fault), "{fault}");
        assert!(rt; taken <= 4 * enough, "{taken}");
    }
}

/// Inputs that are refused in a line without an end: the form, the first bytes, the bytes repeated after them, and the
/// reason.
const LONG: [(Form, &[u8], &[u8], MakeFault); 9] = [
    (Form::Stream, b"", b"y", MakeFault::NotText(1)),
    (Form::Packed, b"null\nend\n", b"y", MakeFault::NotText(3)),
    (Form::Bare, b"null\nend\n", b"n", MakeFault::NotText(3)),
    (Form::Stream, b"", b"0", MakeFault::NotText(1)),
    (Form::Stream, b"null\n", b"e", MakeFault::NotText(2)),
    (
        Form::Stream,
        b"bytes 9999999\n  ",
        b"77F7",
        MakeFault::NotText(2),
    ),
    (Form::Stream, b"bytes 9\n  ", b"7", MakeFault::NotText(2)),
    (
        Form::Packed,
        b"bits 9999999\n  ",
        b"2",
        MakeFault::NotText(2),
    ),
    (
        Form::Bare,
        b"struct 1 1\n  word 0000000000000005\n  bits 9\n    ",
        b"1",
        MakeFault::NotText(4),
    ),
];

#[test]
fn line_without_end(rt: HostRuntime) {
    for (form, text, again, fault) in LONG {
        for most in [65_536, 1_000] {
            let (outcome, taken) = run(rt.alloc(), form, text, again, most);
            assert!(rt; outcome == Err(fault), "{fault}");
            assert!(rt; taken <= 4 * (text.len() + 2_060) + most, "{taken}");
        }
    }
}

/// A text that is right. Some of its lines would be wrong if they were cut.
const GOOD: &[u8] = b"struct 1 1\n  word 0000000000000005\n  bytes 3\n    616263\nend\n";

#[test]
fn cut_in_a_line(rt: HostRuntime) {
    for most in 1usize..20 {
        let (outcome, taken) = run(rt.alloc(), Form::Bare, GOOD, b"", most);
        assert!(rt; outcome == Ok(()), "{most}");
        assert!(rt; taken == GOOD.len(), "{most}");
    }
}
