//! Tests of the lines and the pieces of a shown message, and of the text of a message.

use crate::words::bytes_of;
use capn_show::{
    Broken, Piece, ShowFault, fault_of, plain_line, put, put_between_quotes, put_line_piece,
    put_number, show_message, show_quoted,
};
use capn_walk::{Fault, Limits, Stopped};
use capn_words::{Bare, Place, Watched, Width};
use std::alloc::Global;
use std::io::{self, ErrorKind, Write};
use std::process::Abort;
use std::test::Fail;

/// A writer that takes `room` bytes, and then fails.
#[derive(Drop)]
struct Narrow {
    bytes: Vec<u8>,
    room: usize,
}

impl Write for Narrow {
    fn write(&mut self, buf: &[u8]) -> io::Result<usize> {
        let count = self.room.min(buf.len());
        if count == 0 && !buf.is_empty() {
            return Err(ErrorKind::Other.into());
        }
        self.bytes.extend_from_slice(&buf[..count])?;
        self.room -= count;
        Ok(count)
    }

    fn flush(&mut self) -> io::Result<()> {
        Ok(())
    }
}

/// Returns the line of `bytes` between quotes at `level`, after the text `-`.
fn quoted(alloc: Global, bytes: &[u8], level: u32) -> Result<Vec<u8>, Fail> {
    let mut text = Vec::new(alloc);
    text.push(b'-')?;
    let mut writer = Watched::new(Vec::new(alloc));
    match show_quoted(&mut text, &mut writer, bytes, level) {
        Ok(()) => Ok(text),
        Err(_) => Err(Fail::new("broken off")),
    }
}

/// A quote, a backslash, tab, newline, carriage return, a zero and hidden code points are escaped, and nothing else.
#[test]
fn lines_between_quotes(rt: HostRuntime) -> Result<(), Fail> {
    let plain = quoted(rt.alloc(), b"a b", 0)?;
    assert!(rt; plain.as_slice() == b"-bytes 3 \"a b\"\n".as_slice());
    let escaped = quoted(rt.alloc(), b"a\"\\\0", 2)?;
    assert!(rt; escaped.as_slice() == b"-    bytes 4 \"a\\\"\\\\\\0\"\n".as_slice());
    let empty = quoted(rt.alloc(), b"", 1)?;
    assert!(rt; empty.as_slice() == b"-  bytes 0 \"\"\n".as_slice());
    let wide = quoted(rt.alloc(), b"\t\r\n\xc3\xb6\xe2\x80\xae\0", 0)?;
    assert!(rt; wide.as_slice() == b"-bytes 9 \"\\t\\r\\n\xc3\xb6\\u{202e}\\0\"\n".as_slice());
    Ok(())
}

#[test]
fn the_text_between_quotes(rt: HostRuntime) -> Result<(), Fail> {
    let mut text = Vec::new(rt.alloc());
    let mut writer = Watched::new(Vec::new(rt.alloc()));
    assert!(rt;
        put_between_quotes(
            &mut text,
            &mut writer,
            b"a\"\xf3\xa0\x81\xbf\xf0\x9f\x98\x80\0"
        )
        .is_ok()
    );
    assert!(rt; text.as_slice() == b"a\\\"\\u{e007f}\xf0\x9f\x98\x80\\0".as_slice());
    Ok(())
}

/// Each piece, and its text at level 1.
const PIECES: [(Piece, &[u8]); 20] = [
    (Piece::Nil, b"  null\n"),
    (Piece::Cap(u32::MAX), b"  capability 4294967295\n"),
    (Piece::Body(65_535, 0), b"  struct 65535 0\n"),
    (Piece::Word(0xab), b"  word 00000000000000ab\n"),
    (Piece::Links(3), b"  pointers 3\n"),
    (Piece::Rows(4), b"  rows 4\n"),
    (Piece::Voids(5), b"  void 5\n"),
    (Piece::Bits(6), b"  bits 6\n"),
    (Piece::Bytes(7), b"  bytes 7\n"),
    (Piece::Pairs(8), b"  u16 8\n"),
    (Piece::Quads(9), b"  u32 9\n"),
    (Piece::Octs(10), b"  u64 10\n"),
    (Piece::Number(Width::W16, 11), b"  11\n"),
    (
        Piece::Number(Width::W64, u64::MAX),
        b"  18446744073709551615\n",
    ),
    (Piece::Number(Width::W32, 0), b"  0\n"),
    (Piece::Digits, b"  "),
    (Piece::EndDigits, b"\n"),
    (Piece::EndWords, b""),
    (Piece::EndItems, b""),
    (Piece::NoDigits, b""),
];

#[test]
fn the_text_of_each_piece(rt: HostRuntime) {
    for (piece, want) in PIECES {
        let mut text = Vec::new(rt.alloc());
        let mut writer = Watched::new(Vec::new(rt.alloc()));
        let ending = put_line_piece(&mut text, &mut writer, 1, piece);
        assert!(rt; ending == Ok(()) && text.as_slice() == want);
        assert!(rt; writer.into_inner().is_empty());
    }
}

/// A number is followed by one byte. A line is indented by two spaces for each level, also past 32 levels.
#[test]
fn numbers_and_plain_lines(rt: HostRuntime) -> Result<(), Fail> {
    let mut text = Vec::new(rt.alloc());
    let mut writer = Watched::new(Vec::new(rt.alloc()));
    let ending = put_number(&mut text, &mut writer, u64::MAX, b';');
    assert!(rt; ending == Ok(()));
    assert!(rt; put_number(&mut text, &mut writer, 0, b'\n') == Ok(()));
    assert!(rt; plain_line(&mut text, &mut writer, 2, "none") == Ok(()));
    assert!(rt; text.as_slice() == b"18446744073709551615;0\n    none\n".as_slice());
    text.clear();
    assert!(rt; plain_line(&mut text, &mut writer, 33, "end") == Ok(()));
    assert!(rt; text.len() == 70 && text.as_slice().ends_with(b"  end\n"));
    assert!(rt; writer.into_inner().is_empty());
    Ok(())
}

/// Puts `bytes` after the text `ab`, for a writer with the given room. Returns the result, the text that is left, and
/// the bytes that were written.
fn added(
    alloc: Global,
    bytes: &[u8],
    room: usize,
) -> Result<(Result<(), Broken>, Vec<u8>, Vec<u8>), Fail> {
    let mut text = Vec::new(alloc);
    text.extend_from_slice(b"ab")?;
    let mut writer = Watched::new(Narrow {
        bytes: Vec::new(alloc),
        room,
    });
    let ending = put(&mut text, &mut writer, bytes);
    let Narrow { bytes, room: _ } = writer.into_inner();
    Ok((ending, text, bytes))
}

/// Bytes are appended to the text. A text of 65,536 bytes is written and emptied, and breaks off if the writer fails.
#[test]
fn short_and_long_texts(rt: HostRuntime) -> Result<(), Fail> {
    let bytes = [7; 65_534];
    let (ending, text, written) = added(rt.alloc(), b"c", 0)?;
    assert!(rt; ending == Ok(()) && written.is_empty() && text.as_slice() == b"abc".as_slice());
    let (ending, text, written) = added(rt.alloc(), &bytes[..65_533], 0)?;
    assert!(rt; ending == Ok(()) && written.is_empty() && text.len() == 65_535);
    let (ending, text, written) = added(rt.alloc(), &bytes, 65_536)?;
    assert!(rt; ending == Ok(()) && text.is_empty() && written.len() == 65_536);
    assert!(rt; written.as_slice().starts_with(b"ab\x07"));
    let (ending, _text, written) = added(rt.alloc(), &bytes, 3)?;
    assert!(rt; ending == Err(Broken::Io) && written.as_slice() == b"ab\x07".as_slice());
    Ok(())
}

#[test]
fn the_faults_of_a_broken_text(rt: HostRuntime) {
    assert!(rt; fault_of(Broken::Io) == ShowFault::Io);
    assert!(rt; fault_of(Broken::Memory) == ShowFault::Memory);
}

/// A struct of a word and two slots: three bytes that are a text, and a capability.
const STRUCT: [u64; 5] = [
    0x2_0001_0000_0000,
    5,
    0x1a_0000_0005,
    0x2_0000_0003,
    0x63_6261,
];

/// The text of `STRUCT`. No bytes are written between quotes.
const LINES: &[u8] = b"struct 1 2
  word 0000000000000005
  bytes 3
    616263
  capability 2
";

/// Returns the text of the message of `words` within `budget`, after the text `-`, and the result.
fn shown(
    alloc: Global,
    words: &[u64],
    budget: u32,
) -> Result<(Result<(), ShowFault>, Vec<u8>), Fail> {
    let bytes = bytes_of(alloc, words)?;
    let Ok(space) = Bare::new(bytes.as_slice()) else {
        return Err(Fail::new("no words"));
    };
    let limits = Limits::new(8, budget, 64).unwrap_or(Limits::usual());
    let mut text = Vec::new(alloc);
    text.push(b'-')?;
    let mut writer = Watched::new(Vec::new(alloc));
    let ending = show_message(alloc, &mut text, &mut writer, &space, limits);
    Ok((ending, text))
}

#[test]
fn the_text_of_a_message(rt: HostRuntime) -> Result<(), Fail> {
    let (ending, text) = shown(rt.alloc(), &STRUCT, 8)?;
    assert!(rt; ending == Ok(()) && text.as_slice().get(1..) == Some(LINES));
    let (ending, text) = shown(rt.alloc(), &[0], 8)?;
    assert!(rt; ending == Ok(()) && text.as_slice() == b"-null\n".as_slice());
    Ok(())
}

/// Nothing is added for a message that is refused.
#[test]
fn no_text_of_a_refused_message(rt: HostRuntime) -> Result<(), Fail> {
    let (ending, text) = shown(rt.alloc(), &STRUCT, 3)?;
    let stopped = Stopped {
        fault: Fault::OverBudget,
        place: Place::ROOT,
        paid: 0,
        visits: 1,
    };
    assert!(rt; ending == Err(ShowFault::Stopped(stopped)));
    assert!(rt; text.as_slice() == b"-".as_slice());
    Ok(())
}

/// The text of an accepted message breaks off if the writer fails.
#[test]
fn a_text_that_breaks_off(rt: HostRuntime) -> Result<(), Fail> {
    let bytes = bytes_of(rt.alloc(), &STRUCT)?;
    let Ok(space) = Bare::new(bytes.as_slice()) else {
        return Err(Fail::new("no words"));
    };
    let mut text = Vec::new(rt.alloc());
    text.extend_from_slice(&[7; 65_530])?;
    let mut writer = Watched::new(Narrow {
        bytes: Vec::new(rt.alloc()),
        room: 65_535,
    });
    let ending = show_message(rt.alloc(), &mut text, &mut writer, &space, Limits::usual());
    assert!(rt; ending == Err(ShowFault::Io));
    let Narrow { bytes, room: _ } = writer.into_inner();
    assert!(rt; bytes.len() == 65_535 && bytes.as_slice().ends_with(b"\x07struc"));
    Ok(())
}
