//! Tests of texts of values: what `show` wrote is read back, and a text that is wrong is refused at its first wrong
//! line.

use capn_text::{TextFault, Texts, read};
use capn_value::{Body, Items, Misfit, Tree, Value, show};
use std::alloc::Global;
use std::test::Fail;

fn words(alloc: Global, xs: &[u64]) -> Result<Items<u64>, Fail> {
    Ok(Items::from_slice(alloc, xs)?)
}

fn sample(alloc: Global) -> Result<Value, Fail> {
    let mut inner = Vec::new(alloc);
    inner.push(Value::Bits(Items::from_slice(alloc, &[true, false, true])?))?;
    inner.push(Value::Bits(Items::new(alloc)))?;
    inner.push(Value::Bytes(Items::from_slice(alloc, b"\x00\xffhi")?))?;
    inner.push(Value::Bytes(Items::new(alloc)))?;
    inner.push(Value::Pairs(Items::from_slice(alloc, &[0, 7, 65535])?))?;
    inner.push(Value::Quads(Items::from_slice(alloc, &[0, 10, 4294967295])?))?;
    inner.push(Value::Octs(Items::from_slice(alloc, &[0, 18446744073709551615])?))?;
    inner.push(Value::Voids(12))?;
    inner.push(Value::Nil)?;
    inner.push(Value::Cap(4294967295))?;
    let mut rows = Vec::new(alloc);
    let mut first = Vec::new(alloc);
    first.push(Value::Nil)?;
    let mut second = Vec::new(alloc);
    second.push(Value::Links(Items::new(alloc)))?;
    rows.push(Body {
        words: words(alloc, &[1, 81985529216486895])?,
        slots: Items::from_vec(first),
    })?;
    rows.push(Body {
        words: words(alloc, &[0, 18446744073709551615])?,
        slots: Items::from_vec(second),
    })?;
    inner.push(Value::Rows(Items::from_vec(rows)))?;
    let mut outer = Vec::new(alloc);
    outer.push(Value::Links(Items::from_vec(inner)))?;
    Ok(Value::Node(Body {
        words: words(alloc, &[5])?,
        slots: Items::from_vec(outer),
    }))
}

#[test]
fn what_is_shown_is_read(rt: HostRuntime) -> Result<(), Fail> {
    let alloc = rt.alloc();
    let tree = Tree::new(sample(alloc)?).ok().ok_or("the sample fits")?;
    let text = show(alloc, &tree)?;
    let again = read(alloc, text.as_bytes()).ok().ok_or("the text is read")?;
    let text_again = show(alloc, &again)?;
    assert_eq!(rt; text.as_str(), text_again.as_str());
    Ok(())
}

#[test]
fn each_byte_changed(rt: HostRuntime) -> Result<(), Fail> {
    let alloc = rt.alloc();
    let tree = Tree::new(sample(alloc)?).ok().ok_or("the sample fits")?;
    let text = show(alloc, &tree)?;
    let mut bytes = Vec::from_slice(alloc, text.as_bytes())?;
    for i in 0..text.len() {
        for change in [1u8, 2, 16, 32, 64, 128] {
            if i < bytes.len() {
                let old = bytes[i];
                bytes[i] = old ^ change;
                if let Ok(other) = read(alloc, bytes.as_slice()) {
                    let shown = show(alloc, &other)?;
                    assert_eq!(rt; shown.as_bytes(), bytes.as_slice());
                }
                if i < bytes.len() {
                    bytes[i] = old;
                }
            }
        }
        if let Ok(_) = read(alloc, &text.as_bytes()[..i]) {
            assert!(rt; false, "a part was read");
        }
    }
    Ok(())
}

fn fault_of(alloc: Global, text: &[u8]) -> Option<TextFault> {
    match read(alloc, text) {
        Ok(_) => None,
        Err(fault) => Some(fault),
    }
}

/// Texts that are refused, and the reason for each.
const REFUSED: [(&[u8], TextFault); 18] = [
    (b"", TextFault::Line(1)),
    (b"null", TextFault::Line(1)),
    (b"null\r\n", TextFault::Line(1)),
    (b"null\n\n", TextFault::Line(2)),
    (b"void 01\n", TextFault::Line(1)),
    (b"void 18446744073709551616\n", TextFault::Line(1)),
    (b"void 4294967296\n", TextFault::Line(1)),
    (b"void 4294967295\n", TextFault::Misfit(Misfit::Long)),
    (b"capability 1\n", TextFault::Misfit(Misfit::BadRoot)),
    (b"u16 2\n  1\n  65536\n", TextFault::Line(3)),
    (b"u16 2\n  1\n", TextFault::Line(3)),
    (b"u64 18446744073709551615\n  1\n", TextFault::Line(3)),
    (b"bytes 1\n  fF\n", TextFault::Line(2)),
    (b"bytes 0\n  \n", TextFault::Line(2)),
    (b"struct 1 0\n  word 000000000000000\n", TextFault::Line(2)),
    (
        b"struct 1 0\n   word 0000000000000005\n",
        TextFault::Line(2),
    ),
    (b"rows 2\n  struct 0 0\n  null\n", TextFault::Line(3)),
    (
        b"rows 2\n  struct 0 0\n  struct 1 0\n    word 0000000000000000\n",
        TextFault::Misfit(Misfit::Ragged),
    ),
];

#[test]
fn refusals(rt: HostRuntime) {
    let alloc = rt.alloc();
    assert!(rt; fault_of(alloc, b"null\n").is_none());
    for (text, fault) in REFUSED {
        assert!(rt; fault_of(alloc, text) == Some(fault));
    }
}

const STREAM: &[u8] = b"null\nend\nstruct 1 0\n  word 0000000000000005\nend\n";

#[test]
fn texts_of_a_stream(rt: HostRuntime) {
    let alloc = rt.alloc();
    let mut texts = Texts::new(STREAM);
    assert_eq!(rt; texts.line(), 1);
    assert!(rt; matches!(texts.read_next(alloc), Ok(Some(_))));
    assert_eq!(rt; texts.line(), 3);
    assert!(rt; matches!(texts.read_next(alloc), Ok(Some(_))));
    assert_eq!(rt; texts.line(), 6);
    assert!(rt; matches!(texts.read_next(alloc), Ok(None)));
}

#[test]
fn rest_of_a_stream(rt: HostRuntime) {
    let alloc = rt.alloc();
    let mut all = Texts::new(STREAM);
    assert_eq!(rt; all.left(), STREAM.len());
    assert!(rt; matches!(all.read_next(alloc), Ok(Some(_))));
    assert_eq!(rt; all.left(), STREAM.len() - 9);
    let Some(mut texts) = Texts::from_line(&STREAM[9..], 3) else {
        assert!(rt; false);
        return;
    };
    assert_eq!(rt; texts.line(), 3);
    assert!(rt; matches!(texts.read_next(alloc), Ok(Some(_))));
    assert_eq!(rt; texts.line(), 6);
    assert_eq!(rt; texts.left(), 0);
    let most = u64::MAX - STREAM.len() as u64;
    assert!(rt; Texts::from_line(STREAM, most).is_some());
    assert!(rt; Texts::from_line(STREAM, most + 1).is_none());
}

/// Returns the fault that ends the stream `input`, and the line at which the refused text begins.
fn stream_fault(alloc: Global, input: &[u8]) -> Option<(u64, TextFault)> {
    let mut texts = Texts::new(input);
    for _ in 0..input.len() {
        match texts.read_next(alloc) {
            Ok(Some(_)) => {}
            Ok(None) => return None,
            Err(fault) => return Some((texts.line(), fault)),
        }
    }
    None
}

/// Streams of texts that are refused, the line at which the refused text begins, and the reason.
const REFUSED_STREAMS: [(&[u8], u64, TextFault); 7] = [
    (b"null\nend\nnull\n", 3, TextFault::Cut(4)),
    (b"null\nend\nnull\nnull\nend\n", 3, TextFault::Line(4)),
    (b"null\nend\nbits 2\n  10\nEnd\n", 3, TextFault::Line(5)),
    (b"null\nend\nbits 2\n  12\nend\n", 3, TextFault::Line(4)),
    (
        b"null\nend\nvoid 4294967295\nend\n",
        3,
        TextFault::Misfit(Misfit::Long),
    ),
    (b"null\nend\nvoid 4294967295\nEnd\n", 3, TextFault::Line(4)),
    (b"capability 1\n", 1, TextFault::Cut(2)),
];

#[test]
fn lines_of_a_stream(rt: HostRuntime) {
    let alloc = rt.alloc();
    assert!(rt; stream_fault(alloc, b"").is_none());
    assert!(rt; stream_fault(alloc, STREAM).is_none());
    for (input, line, fault) in REFUSED_STREAMS {
        assert!(rt; stream_fault(alloc, input) == Some((line, fault)));
    }
}

/// Returns the text of `levels` structs, each in the one before, with the lines `last` in the innermost.
fn nested(alloc: Global, levels: u32, last: &[u8]) -> Result<Vec<u8>, Fail> {
    let mut text = Vec::new(alloc);
    for level in 0..levels {
        for _ in 0..level {
            text.extend_from_slice(b"  ")?;
        }
        text.extend_from_slice(b"struct 0 1\n")?;
    }
    for _ in 0..levels {
        text.extend_from_slice(b"  ")?;
    }
    text.extend_from_slice(last)?;
    Ok(text)
}

/// Returns the fault of the text that has the lines `last` at level 256.
fn deep_fault(alloc: Global, last: &[u8]) -> Result<Option<TextFault>, Fail> {
    let text = nested(alloc, 256, last)?;
    Ok(fault_of(alloc, text.as_slice()))
}

/// The refusal of a text of more than 256 levels, whatever follows its first line that is too deep.
const TALL: TextFault = TextFault::Misfit(Misfit::Tall);

/// Lines at level 256 that are refused, and the reason for each.
const TOO_DEEP: [(&[u8], TextFault); 6] = [
    (b"struct 0 0\n", TALL),
    (b"void 0\n", TALL),
    (b"struct 1 0\nword", TALL),
    (b"bits 2\n12\n", TALL),
    (b"nul\n", TextFault::Line(257)),
    (b"void 4294967296\n", TextFault::Line(257)),
];

#[test]
fn texts_that_go_deep(rt: HostRuntime) -> Result<(), Fail> {
    let alloc = rt.alloc();
    assert!(rt; deep_fault(alloc, b"null\n")?.is_none());
    assert!(rt; deep_fault(alloc, b"capability 1\n")?.is_none());
    for (last, fault) in TOO_DEEP {
        assert!(rt; deep_fault(alloc, last)? == Some(fault));
    }
    Ok(())
}
