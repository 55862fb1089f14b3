//! Tests of the converter of texts between quotes, and of what the next line of a text shows before it is read.

use capn_text::{Texts, Unquoter};
use capn_value::Value;
use std::alloc::{AllocError, Global};
use std::test::Fail;

/// Returns the plain form of `text`, which arrives in chunks of at most `most` bytes.
fn converted(alloc: Global, text: &[u8], most: usize) -> Result<Vec<u8>, AllocError> {
    let mut converter = Unquoter::new(alloc);
    let mut out = Vec::new(alloc);
    let mut rest = text;
    while !rest.is_empty() {
        let (chunk, after) = rest.split_at(most.min(rest.len()));
        converter.push(chunk, &mut out)?;
        rest = after;
    }
    converter.finish(&mut out)?;
    Ok(out)
}

/// The plain form doesn't depend on the chunks. An unfinished last line is appended unchanged.
#[test]
fn plain_form_of_chunks(rt: HostRuntime) -> Result<(), Fail> {
    let alloc = rt.alloc();
    let text = b"pointers 2\n  bytes 3 \"abc\"\n  bytes \"~\\0\"\nend\nbytes 1 \"a";
    let want =
        b"pointers 2\n  bytes 3\n    616263\n  bytes 2\n    7e00\nend\nbytes 1 \"a".as_slice();
    for most in [1, 2, 7, 100] {
        let plain = converted(alloc, text, most)?;
        assert!(rt; plain.as_slice() == want);
    }
    Ok(())
}

/// The plain form has one line more for each line with quotes. Lines that were dropped are no longer needed to find a
/// later line.
#[test]
fn own_lines_of_a_plain_form(rt: HostRuntime) -> Result<(), Fail> {
    let alloc = rt.alloc();
    let mut converter = Unquoter::new(alloc);
    let mut out = Vec::new(alloc);
    converter.push(b"bytes \"a\"\nend\nbytes \"b\"\nend\nnull\nend\n", &mut out)?;
    // The lines of the plain form: bytes 1, 61, end, bytes 1, 62, end, null, end.
    let own = [1, 1, 2, 3, 3, 4, 5, 6];
    for (before, want) in own.iter().enumerate() {
        assert!(rt; converter.own_line(before as u64 + 1) == *want);
    }
    converter.forget(4);
    for before in 3..own.len() {
        assert!(rt; converter.own_line(before as u64 + 1) == own[before]);
    }
    Ok(())
}

#[test]
fn an_input_that_is_read_to_its_end(rt: HostRuntime) -> Result<(), Fail> {
    let alloc = rt.alloc();
    let mut texts = Texts::new(b"null\nend\n");
    assert!(rt; !texts.is_done());
    assert!(rt; texts.begins());
    assert!(rt; !texts.may_begin());
    match texts.read_next(alloc) {
        Ok(Some(tree)) => {
            assert!(rt; matches!(tree.value(), Value::Nil));
        }
        _ => return Err(Fail::new("no tree")),
    }
    assert!(rt; texts.is_done());
    assert!(rt; !texts.begins());
    // A line may still arrive.
    assert!(rt; texts.may_begin());
    Ok(())
}

/// A line that is cut may go on as a line that begins a value. A wrong line with 2,048 bytes after it may not.
#[test]
fn lines_that_begin_no_value(rt: HostRuntime) -> Result<(), Fail> {
    let cut = Texts::new(b"struct 1");
    assert!(rt; !cut.begins());
    assert!(rt; cut.may_begin());
    let mut long = Vec::new(rt.alloc());
    long.extend_from_slice(b"nothing\n")?;
    long.resize(3_000, b' ')?;
    let wrong = Texts::new(long.as_slice());
    assert!(rt; !wrong.begins());
    assert!(rt; !wrong.may_begin());
    Ok(())
}
