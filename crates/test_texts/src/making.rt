//! Tests of messages made from texts in each form, and of refused runs.

use capn_make::{Form, MakeFault, Misfit, Watched, make};
use capn_value::show;
use capn_walk::{Limits, walk};
use capn_words::Bare;
use std::alloc::Global;
use std::test::Fail;

/// Returns the result and the output of a run over `input`.
pub(crate) fn run(alloc: Global, form: Form, input: &[u8]) -> (Result<(), MakeFault>, Vec<u8>) {
    let mut reader = Watched::new(input);
    let mut writer = Watched::new(Vec::new(alloc));
    let outcome = make(alloc, form, &mut reader, &mut writer);
    let _ = reader.into_inner();
    (outcome, writer.into_inner())
}

/// Tests whether a run over `input` ends with `fault` after writing `text`.
fn refuses(alloc: Global, form: Form, input: &[u8], fault: MakeFault, text: &[u8]) -> bool {
    let (outcome, written) = run(alloc, form, input);
    outcome == Err(fault) && written.as_slice() == text
}

/// Tests whether a run over `input` ends with `Ok` after writing `text`.
fn makes(alloc: Global, form: Form, input: &[u8], text: &[u8]) -> bool {
    let (outcome, written) = run(alloc, form, input);
    outcome == Ok(()) && written.as_slice() == text
}

pub(crate) const NULL: &[u8] = b"null\nend\n";

const NULL_FRAME: &[u8] = b"\0\0\0\0\x01\0\0\0\0\0\0\0\0\0\0\0";

const NULL_PACKED: &[u8] = b"\x10\x01\0\0";

/// A struct whose last word is zero and whose last slot is null.
pub(crate) const PADDED: &[u8] =
    b"struct 2 1\n  word 0000000000000005\n  word 0000000000000000\n  null\nend\n";

/// Forms and inputs, each pair with its output.
pub(crate) const MADE: [(Form, &[u8], &[u8]); 8] = [
    (Form::Stream, NULL, NULL_FRAME),
    (Form::Packed, NULL, NULL_PACKED),
    (Form::Bare, NULL, b"\0\0\0\0\0\0\0\0"),
    (Form::Stream, b"", b""),
    (Form::Packed, b"", b""),
    (Form::Bare, PADDED, b"\0\0\0\0\x01\0\0\0\x05\0\0\0\0\0\0\0"),
    (Form::Packed, PADDED, b"\x10\x02\x10\x01\x01\x05"),
    // Each frame is packed separately, so that no group spans two frames.
    (
        Form::Packed,
        b"null\nend\nnull\nend\n",
        b"\x10\x01\0\0\x10\x01\0\0",
    ),
];

#[test]
fn each_form(rt: HostRuntime) {
    for (form, input, text) in MADE {
        assert!(rt; makes(rt.alloc(), form, input, text));
    }
}

/// Inputs that are refused in the form `stream` before anything is written, and the reason for each.
const REFUSED: [(&[u8], MakeFault); 22] = [
    (b"nul\nend\n", MakeFault::NotText(1)),
    (b"null\r\nend\r\n", MakeFault::NotText(1)),
    (b"null\nend\r\n", MakeFault::NotText(2)),
    (b"\xef\xbb\xbfnull\nend\n", MakeFault::NotText(1)),
    (b"pointers 1\n\tnull\nend\n", MakeFault::NotText(2)),
    (b"null\nend", MakeFault::NotText(2)),
    (b"null\n", MakeFault::NotText(2)),
    (b"null\n\nend\n", MakeFault::NotText(2)),
    (b"pointers 2\n  null\n", MakeFault::NotText(3)),
    (b"void 4294967296\nend\n", MakeFault::NotText(1)),
    (b"u64 18446744073709551616\nend\n", MakeFault::NotText(1)),
    (b"u64 18446744073709551615\n  1\n", MakeFault::NotText(3)),
    (b"u16 1\n  65536\nend\n", MakeFault::NotText(2)),
    (b"bytes 1\n  fF\nend\n", MakeFault::NotText(2)),
    (
        b"struct 01 0\n  word 0000000000000000\nend\n",
        MakeFault::NotText(1),
    ),
    (
        b"rows 2\n  struct 0 0\n  struct 1 0\n    word 0000000000000000\nend\n",
        MakeFault::Misfit(1, Misfit::Ragged),
    ),
    (b"void 536870912\nend\n", MakeFault::Misfit(1, Misfit::Long)),
    (
        b"void 268435457\nend\n",
        MakeFault::Misfit(1, Misfit::Costly),
    ),
    (
        b"capability 2\nend\n",
        MakeFault::Misfit(1, Misfit::BadRoot),
    ),
    (b"capability 2\nEnd\n", MakeFault::NotText(2)),
    (
        b"pointers 1\n  capability 2\nend\n",
        MakeFault::Capability(1, 2),
    ),
    (
        b"pointers 2\n  capability 2\n  void 536870912\nend\n",
        MakeFault::Misfit(1, Misfit::Long),
    ),
];

#[test]
fn each_refusal(rt: HostRuntime) {
    for (input, fault) in REFUSED {
        assert!(rt; refuses(rt.alloc(), Form::Stream, input, fault, b""));
    }
}

/// Forms and inputs whose second text is refused, the reason for each, and the output for the first text.
const REFUSED_LATER: [(Form, &[u8], MakeFault, &[u8]); 4] = [
    (
        Form::Stream,
        b"null\nend\nbits 2\n  12\nend\n",
        MakeFault::NotText(4),
        NULL_FRAME,
    ),
    (
        Form::Packed,
        b"null\nend\nbits 2\n  12\nend\n",
        MakeFault::NotText(4),
        NULL_PACKED,
    ),
    (
        Form::Stream,
        b"null\nend\npointers 1\n  capability 7\nend\n",
        MakeFault::Capability(3, 7),
        NULL_FRAME,
    ),
    (
        Form::Stream,
        b"null\nend\ncapability 7\nend\nnull\nend\n",
        MakeFault::Misfit(3, Misfit::BadRoot),
        NULL_FRAME,
    ),
];

#[test]
fn texts_before_are_written(rt: HostRuntime) {
    for (form, input, fault, text) in REFUSED_LATER {
        assert!(rt; refuses(rt.alloc(), form, input, fault, text));
    }
}

/// Inputs that are refused in the form `bare`, which takes exactly one text, and the reason for each.
const REFUSED_BARE: [(&[u8], MakeFault); 9] = [
    (b"", MakeFault::NoText),
    (b"null\nend\nnull\nend\n", MakeFault::Another(3)),
    (b"null\nend\nstruct 1 0\n", MakeFault::Another(3)),
    (b"null\nend\nnul\n", MakeFault::NotText(3)),
    (b"null\nend\nnull", MakeFault::NotText(3)),
    (b"null\nend\nend\n", MakeFault::NotText(3)),
    (b"null\nend\nvoid 4294967296\n", MakeFault::NotText(3)),
    (b"null\nnull\nend\n", MakeFault::NotText(2)),
    (
        b"pointers 1\n  capability 7\nend\nnull\n",
        MakeFault::Capability(1, 7),
    ),
];

#[test]
fn one_text(rt: HostRuntime) {
    for (input, fault) in REFUSED_BARE {
        assert!(rt; refuses(rt.alloc(), Form::Bare, input, fault, b""));
    }
}

/// Tests whether the message made from `text` is shown as `text` again, without the line `end`.
fn is_shown_again(alloc: Global, text: &[u8]) -> bool {
    let (_, bytes) = run(alloc, Form::Bare, text);
    let Ok(space) = Bare::new(bytes.as_slice()) else {
        return false;
    };
    let Ok(walked) = walk(alloc, &space, Limits::usual()) else {
        return false;
    };
    match show(alloc, &walked.tree) {
        Ok(shown) => text.strip_suffix(b"end\n") == Some(shown.as_bytes()),
        Err(_) => false,
    }
}

/// Texts of values of each kind.
const SHOWN: [&[u8]; 14] = [
    b"null\nend\n",
    b"struct 0 0\nend\n",
    b"struct 1 0\n  word 0123456789abcdef\nend\n",
    b"struct 0 2\n  null\n  struct 1 0\n    word 8000000000000000\nend\n",
    b"void 7\nend\n",
    b"bits 0\nend\n",
    b"bits 9\n  101100111\nend\n",
    b"bytes 3\n  00ff61\nend\n",
    b"u16 3\n  0\n  7\n  65535\nend\n",
    b"u32 2\n  4294967295\n  1\nend\n",
    b"u64 2\n  18446744073709551615\n  0\nend\n",
    b"pointers 3\n  null\n  void 0\n  bytes 1\n    2a\nend\n",
    b"rows 2\n  struct 1 1\n    word 0000000000000001\n    null\n  struct 1 1\n    word 0000000000000000\n\
      \x20   u16 0\nend\n",
    b"rows 3\n  struct 0 0\n  struct 0 0\n  struct 0 0\nend\n",
];

#[test]
fn shown_again(rt: HostRuntime) {
    for text in SHOWN {
        assert!(rt; is_shown_again(rt.alloc(), text));
    }
}

/// Faults, each with its text and its exit status.
const REPORTED: [(MakeFault, &str, u8); 9] = [
    (MakeFault::Memory, "out of memory", 3),
    (MakeFault::Io, "input or output failed", 3),
    (MakeFault::InputTooLong, "input too long", 3),
    (
        MakeFault::NotText(12),
        "line 12: not the text of a value",
        1,
    ),
    (MakeFault::Misfit(3, Misfit::Wide), "line 3: Wide", 1),
    (MakeFault::Misfit(3, Misfit::BadRoot), "line 3: BadRoot", 1),
    (MakeFault::Capability(1, 2), "line 1: capability 2", 1),
    (MakeFault::Another(7), "line 7: another text", 1),
    (MakeFault::NoText, "line 1: no text", 1),
];

#[test]
fn reports(rt: HostRuntime) -> Result<(), Fail> {
    for (fault, text, status) in REPORTED {
        let shown = format!(in rt.alloc(); "{fault}")?;
        assert!(rt; shown.as_str() == text && fault.status() == status);
    }
    Ok(())
}
