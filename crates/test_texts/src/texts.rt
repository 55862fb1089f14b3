//! Tests of lists of bytes that are texts, and of texts that are read from between quotes.

use capn_quoted::{
    Unread, after_first, code_at, hexadecimal, is_ascii_text, is_clear_text, is_hidden, is_text,
    may_go_on, split_bare, unquoted,
};
use std::test::Fail;

/// Lists of bytes that are texts.
const TEXTS: [&[u8]; 8] = [
    b"h\xc3\xb6\0",
    b"a\nb\0",
    b"ab",
    b" ~",
    b"\xe2\x80\xaea\0",
    b"\0",
    b"\xf0\x9f\x98\x80\0",
    b"\xf4\x8f\xbf\xbf\0",
];

/// Lists of bytes that are no texts: no zero at the end, a control character, overlong, a surrogate, past the last code
/// point, cut inside a code point, no bytes.
const OTHERS: [&[u8]; 11] = [
    b"h\xc3\xb6",
    b"\xc2\x85\0",
    b"\xc0\x80\0",
    b"\xed\xa0\x80\0",
    b"\xf4\x90\x80\x80\0",
    b"\xc3\0",
    b"",
    b"a\0b",
    b"a\nb",
    b"a\x7f",
    b"\x1f",
];

#[test]
fn which_lists_are_texts(rt: HostRuntime) {
    for text in TEXTS {
        assert!(rt; is_text(text));
    }
    for other in OTHERS {
        assert!(rt; !is_text(other));
    }
    assert!(rt; is_ascii_text(b"ab") && !is_ascii_text(b"a\nb\0"));
    assert!(rt; is_clear_text(b"a\nb\0") && !is_clear_text(b"ab"));
}

#[test]
fn the_parts_of_a_text(rt: HostRuntime) {
    assert!(rt; split_bare(b"ab\"c") == (b"ab".as_slice(), b"\"c".as_slice()));
    assert!(rt; code_at(0xe2, b"\x80\xae") == 0x202e && is_hidden(0x202e) && !is_hidden(0x41));
    assert!(rt; after_first(0xe2, b"\x80\xaea") == b"a".as_slice());
    assert!(rt; hexadecimal(0xad) == (*b"000ad", 3));
}

/// Bytes after the opening quote, each with the number of bytes from the first wrong byte on.
const WRONG: [(&[u8], usize); 9] = [
    (b"\"", 1),
    (b"\xc3\xa9\"", 1),
    (b"\xe2\x80\xae\\0\"", 4),
    (b"\xe0\x80\x80\\0\"", 5),
    (b"\xed\xa0\x80\\0\"", 5),
    (b"\\u{41}\\0\"", 6),
    (b"\xf3\xa0\x80\x80\\0\"", 5),
    (b"a\n\"", 2),
    (b"ab", 0),
];

#[test]
fn the_first_wrong_byte(rt: HostRuntime) -> Result<(), Fail> {
    for (text, left) in WRONG {
        assert!(rt; unquoted(rt.alloc(), text).err() == Some(Unread::Wrong(left)));
        assert!(rt; may_go_on(text) == (left == 0));
    }
    let bytes = unquoted(rt.alloc(), b"h\xc3\xb6\\u{202e}\\t\\0\"")?;
    assert!(rt; bytes.as_slice() == b"h\xc3\xb6\xe2\x80\xae\t\0".as_slice());
    Ok(())
}
