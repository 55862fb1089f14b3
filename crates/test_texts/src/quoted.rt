//! Tests of messages made from texts between quotes. The messages equal those made from hexadecimal digits, and a
//! refusal names the line of the input.

use crate::making::run;
use crate::pieces::Pieces;
use capn_make::{Form, MakeFault, Misfit, Watched, make_texts};
use std::alloc::Global;

/// Returns the result and the output of a run over `rest`, which may have quotes, in chunks of at most `most` bytes.
fn run_texts(
    alloc: Global,
    form: Form,
    rest: &[u8],
    most: usize,
) -> (Result<(), MakeFault>, Vec<u8>) {
    let mut reader = Watched::new(Pieces { rest, most });
    let mut writer = Watched::new(Vec::new(alloc));
    let outcome = make_texts(alloc, form, &mut reader, &mut writer);
    let _ = reader.into_inner();
    (outcome, writer.into_inner())
}

/// Tests whether a run over `input`, with quotes allowed, ends with `ending`. The run must write what a run over
/// `plain`, without quotes, writes.
fn is_same(
    alloc: Global,
    form: Form,
    input: &[u8],
    plain: &[u8],
    ending: Result<(), MakeFault>,
) -> bool {
    let (_, written) = run(alloc, form, plain);
    for most in [1, 7, 65_536] {
        let (outcome, text) = run_texts(alloc, form, input, most);
        if outcome != ending || text.as_slice() != written.as_slice() {
            return false;
        }
    }
    true
}

/// Inputs that may have quotes, each with the same texts in hexadecimal digits.
const QUOTED: [(&[u8], &[u8]); 14] = [
    (b"bytes 3 \"abc\"\nend\n", b"bytes 3\n  616263\nend\n"),
    (b"bytes \"abc\"\nend\n", b"bytes 3\n  616263\nend\n"),
    (
        b"bytes \"a\\\"b\\\\c\\0\"\nend\n",
        b"bytes 6\n  6122625c6300\nend\n",
    ),
    (b"bytes 1 \"\\0\"\nend\n", b"bytes 1\n  00\nend\n"),
    (
        b"pointers 2\n  bytes 1 \"~\"\n  bytes 1\n    7f\nend\nbytes \" \"\nend\n",
        b"pointers 2\n  bytes 1\n    7e\n  bytes 1\n    7f\nend\nbytes 1\n  20\nend\n",
    ),
    (b"", b""),
    (b"null\nend\n", b"null\nend\n"),
    (
        b"bytes 4 \"h\xc3\xb6\\0\"\nend\n",
        b"bytes 4\n  68c3b600\nend\n",
    ),
    (b"bytes \"a\\nb\\0\"\nend\n", b"bytes 4\n  610a6200\nend\n"),
    (
        b"bytes 5 \"\\u{202e}a\\0\"\nend\n",
        b"bytes 5\n  e280ae6100\nend\n",
    ),
    (
        b"bytes 5 \"\xf0\x9f\x98\x80\\0\"\nend\n",
        b"bytes 5\n  f09f988000\nend\n",
    ),
    (
        b"bytes \"\\u{ad}\\u{e007f}\\0\"\nend\n",
        b"bytes 7\n  c2adf3a081bf00\nend\n",
    ),
    (
        b"bytes 4 \"\\t\\r\\\"\\0\"\nend\n",
        b"bytes 4\n  090d2200\nend\n",
    ),
    (
        b"bytes 5 \"\xf4\x8f\xbf\xbf\\0\"\nend\n",
        b"bytes 5\n  f48fbfbf00\nend\n",
    ),
];

#[test]
fn each_quoted(rt: HostRuntime) {
    for (input, plain) in QUOTED {
        for form in [Form::Stream, Form::Packed] {
            assert!(rt; is_same(rt.alloc(), form, input, plain, Ok(())));
        }
    }
    assert!(rt; is_same(rt.alloc(), Form::Bare, QUOTED[0].0, QUOTED[0].1, Ok(())));
}

/// Inputs that are refused in the form `stream`, and the reason for each, with the line of the input.
const REFUSED: [(&[u8], MakeFault); 34] = [
    (b"bytes \"\"\nend\n", MakeFault::NotText(1)),
    (b"bytes 0 \"\"\nend\n", MakeFault::NotText(1)),
    (b"bytes 2 \"abc\"\nend\n", MakeFault::NotText(1)),
    (b"bytes 03 \"abc\"\nend\n", MakeFault::NotText(1)),
    (b"bytes 3  \"abc\"\nend\n", MakeFault::NotText(1)),
    (b"bytes 3 \"abc\" \nend\n", MakeFault::NotText(1)),
    (b"bytes 3 \"abc\nend\n", MakeFault::NotText(1)),
    (b"bytes 3 \"a\"c\"\nend\n", MakeFault::NotText(1)),
    (b"bytes 2 \"a\\n\"\nend\n", MakeFault::NotText(1)),
    (b"bytes 3 \"a\\0c\"\nend\n", MakeFault::NotText(1)),
    (b"bytes 2 \"a\t\"\nend\n", MakeFault::NotText(1)),
    (b"bytes 2 \"a\x7f\"\nend\n", MakeFault::NotText(1)),
    // No text is written so: `\0` is missing, an escape is missing or needless, or the bytes are no clear UTF-8.
    (b"bytes \"\xc3\xa9\"\nend\n", MakeFault::NotText(1)),
    (b"bytes \"a\\n\"\nend\n", MakeFault::NotText(1)),
    (b"bytes \"\\u{41}\\0\"\nend\n", MakeFault::NotText(1)),
    (b"bytes \"\\u{AD}\\0\"\nend\n", MakeFault::NotText(1)),
    (b"bytes \"\\u{0ad}\\0\"\nend\n", MakeFault::NotText(1)),
    (b"bytes \"\\u{}\\0\"\nend\n", MakeFault::NotText(1)),
    (b"bytes \"\xe2\x80\xae\\0\"\nend\n", MakeFault::NotText(1)),
    (b"bytes \"\xed\xa0\x80\\0\"\nend\n", MakeFault::NotText(1)),
    (b"bytes \"\xc0\x80\\0\"\nend\n", MakeFault::NotText(1)),
    (
        b"bytes \"\xf4\x90\x80\x80\\0\"\nend\n",
        MakeFault::NotText(1),
    ),
    (b"bytes \"\xc2\x85\\0\"\nend\n", MakeFault::NotText(1)),
    (b"bytes \"\xc3\\0\"\nend\n", MakeFault::NotText(1)),
    (b"bytes \"\xc3\xa9\x09\\0\"\nend\n", MakeFault::NotText(1)),
    (b"bytes 3 \"h\xc3\xb6\\0\"\nend\n", MakeFault::NotText(1)),
    (b"u16 1 \"a\"\nend\n", MakeFault::NotText(1)),
    (b"bytes \"a\"\nnull\nend\n", MakeFault::NotText(2)),
    (b"bytes \"a\"", MakeFault::NotText(1)),
    (b"bytes \"a\"\n", MakeFault::NotText(2)),
    (
        b"pointers 3\n  bytes \"a\"\n  bytes 1 \"b\"\n  bytes 2 \"c\"\nend\n",
        MakeFault::NotText(4),
    ),
    (
        b"struct 1 1\n  bytes \"a\"\n  bytes \"b\"\nend\n",
        MakeFault::NotText(2),
    ),
    (
        b"pointers 2\n  bytes \"a\"\n    bytes \"b\"\nend\n",
        MakeFault::NotText(3),
    ),
    (
        b"pointers 2\n  bytes \"a\"\n  capability 7\nend\nnull\n",
        MakeFault::Capability(1, 7),
    ),
];

#[test]
fn each_refusal_at_its_line(rt: HostRuntime) {
    for (input, fault) in REFUSED {
        assert!(rt;
            is_same(rt.alloc(), Form::Stream, input, b"", Err(fault)),
            "{fault}"
        );
    }
}

#[test]
fn texts_before_a_refusal(rt: HostRuntime) {
    let two = b"pointers 2\n  bytes \"a\"\n  bytes \"b\"\nend\nbytes \"c\"\nend\nbytes\nend\n";
    let plain = b"pointers 2\n  bytes 1\n    61\n  bytes 1\n    62\nend\nbytes 1\n  63\nend\n";
    let wrong = Err(MakeFault::NotText(7));
    assert!(rt; is_same(rt.alloc(), Form::Stream, two, plain, wrong));
    let another = Err(MakeFault::Another(5));
    assert!(rt; is_same(rt.alloc(), Form::Bare, two, b"", another));
}

#[test]
fn a_wrong_line_too_deep(rt: HostRuntime) -> Result<(), std::test::Fail> {
    let mut input = Vec::new(rt.alloc());
    for level in 0..256 {
        for _ in 0..level {
            input.extend_from_slice(b"  ")?;
        }
        input.extend_from_slice(b"pointers 1\n")?;
    }
    let mut deep = input.clone()?;
    for _ in 0..256 {
        input.extend_from_slice(b"  ")?;
        deep.extend_from_slice(b"  ")?;
    }
    input.extend_from_slice(b"bytes 2 \"a\"\nend\n")?;
    deep.extend_from_slice(b"bytes 1 \"a\"\nend\n")?;
    let wrong = Err(MakeFault::NotText(257));
    let tall = Err(MakeFault::Misfit(1, Misfit::Tall));
    assert!(rt; is_same(rt.alloc(), Form::Stream, &input, b"", wrong));
    assert!(rt; is_same(rt.alloc(), Form::Stream, &deep, b"", tall));
    Ok(())
}

#[test]
fn own_lines_after_many_texts(rt: HostRuntime) -> Result<(), std::test::Fail> {
    let mut input = Vec::new(rt.alloc());
    let mut plain = Vec::new(rt.alloc());
    for _ in 0..300 {
        input.extend_from_slice(b"pointers 2\n  bytes \"a\"\n  bytes 1 \"b\"\nend\n")?;
        plain.extend_from_slice(b"pointers 2\n  bytes 1\n    61\n  bytes 1\n    62\nend\n")?;
    }
    input.extend_from_slice(b"pointers 2\n  bytes \"a\"\n  bytes 2 \"b\"\nend\n")?;
    let wrong = Err(MakeFault::NotText(1203));
    assert!(rt; is_same(rt.alloc(), Form::Stream, &input, &plain, wrong));
    Ok(())
}

/// Returns the number of bytes that a run leaves unread when it refuses the first line, or 0 if it ends otherwise. The
/// input is `front`, filled up to 400,000 bytes with `filler`, without a newline.
fn left_of(alloc: Global, front: &[u8], filler: u8) -> Result<usize, std::test::Fail> {
    let mut input = Vec::new(alloc);
    input.extend_from_slice(front)?;
    input.resize(400_000, filler)?;
    let mut reader = Watched::new(Pieces {
        rest: &input,
        most: 65_536,
    });
    let mut writer = Watched::new(Vec::new(alloc));
    let outcome = make_texts(alloc, Form::Stream, &mut reader, &mut writer);
    let written = writer.into_inner();
    if outcome == Err(MakeFault::NotText(1)) && written.is_empty() {
        Ok(reader.into_inner().rest.len())
    } else {
        Ok(0)
    }
}

#[test]
fn endless_lines(rt: HostRuntime) -> Result<(), std::test::Fail> {
    assert!(rt; left_of(rt.alloc(), b"", b'x')? >= 300_000);
    assert!(rt; left_of(rt.alloc(), b"bytes ", b'x')? >= 300_000);
    assert!(rt; left_of(rt.alloc(), b"  u16 ", b'1')? >= 300_000);
    // A wrong byte between quotes: the quote after a text that needs a last zero, and a number of no hidden code point.
    assert!(rt; left_of(rt.alloc(), b"bytes \"\xc3\xa9\"", b'x')? >= 300_000);
    assert!(rt; left_of(rt.alloc(), b"bytes 9 \"\\u{4", b'1')? >= 300_000);
    Ok(())
}
