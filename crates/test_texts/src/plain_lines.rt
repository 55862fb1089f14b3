//! Tests of lines, and of their plain form, which has no text between quotes.

use capn_text::{count_to, lines_in, next_line, plain_text, push_plain};
use std::test::Fail;

/// A last line without its newline is not counted.
#[test]
fn lines_and_their_numbers(rt: HostRuntime) {
    assert!(rt; lines_in(b"a\n\nc") == 2 && lines_in(b"a") == 0);
    assert!(rt; next_line(b"ab\ncd") == Some((b"ab".as_slice(), b"cd".as_slice())));
    assert!(rt; next_line(b"ab") == None);
    assert!(rt; count_to(&[1, 3, 5], 3) == 2);
}

#[test]
fn the_plain_form_of_a_text(rt: HostRuntime) -> Result<(), Fail> {
    let plain = plain_text(rt.alloc(), b"null\nbytes 3 \"ab\\0\"\n")?;
    assert!(rt; plain.as_slice() == b"null\nbytes 3\n  616200\n".as_slice());
    let mut out = Vec::new(rt.alloc());
    let is_quoted = push_plain(rt.alloc(), &mut out, b"  bytes 1 \"x\"")?;
    assert!(rt; is_quoted && out.as_slice() == b"  bytes 1\n    78\n".as_slice());
    assert!(rt; !push_plain(rt.alloc(), &mut out, b"null")?);
    Ok(())
}
