//! Tests of the greatest allocation of `show`, for bare inputs and for the texts of long lists.

use crate::short_runs::output;
use crate::subject::limits;
use crate::words::bytes_of;
use capn_canon::Form;
use capn_commands::Command;
use capn_show::{Style, show_part};
use capn_words::{Bare, Watched};
use std::alloc::{AllocError, Global};
use std::io::{self, Write};
use std::test::Fail;
use test_allocator::Refusing;

/// Returns a bare message of `len` bytes: the word `root`, and then only the letter x.
fn bare_of(alloc: Global, root: u64, len: usize) -> Result<Vec<u8>, AllocError> {
    let mut bytes = bytes_of(alloc, &[root])?;
    bytes.resize(len, b'x')?;
    Ok(bytes)
}

/// Tests whether a bare message of `len` bytes is shown without an allocation of more than 256 KiB plus twice `len`.
fn follows_its_input(alloc: Global, root: u64, len: usize) -> Result<bool, AllocError> {
    let input = bare_of(alloc, root, len)?;
    let most = len.saturating_mul(2).saturating_add(262_144);
    let heap = Refusing::nth(alloc, 0);
    heap.refuse_above(most);
    let command = Command::Show(Form::Bare, limits(64));
    let (outcome, text) = output(alloc, &heap, command, input.as_slice());
    Ok(outcome == Ok(()) && !text.is_empty() && heap.greatest() <= most)
}

/// A bare input may have 2 GiB, but no room is allocated before its bytes are read. The lists have 7 and 24,999 words.
#[test]
fn room_for_a_bare_input(rt: HostRuntime) -> Result<(), Fail> {
    assert!(rt; follows_its_input(rt.alloc(), 0x3d_0000_0001, 64)?);
    assert!(rt; follows_its_input(rt.alloc(), 0x3_0d3d_0000_0001, 200_000)?);
    Ok(())
}

/// A writer that counts the bytes written.
#[derive(Drop)]
struct Counted {
    bytes: u64,
}

impl Write for Counted {
    fn write(&mut self, buf: &[u8]) -> io::Result<usize> {
        self.bytes = self.bytes.saturating_add(buf.len() as u64);
        Ok(buf.len())
    }

    fn flush(&mut self) -> io::Result<()> {
        Ok(())
    }
}

/// The root pointer to a list of 1 MiB of bytes.
const LONG: u64 = 0x80_0002_0000_0001;

/// The length in bytes of the bare message with the root `LONG`.
const LONG_LEN: usize = 1_048_584;

/// Twice the greatest size of a text that is held: up to 65,536 bytes that wait to be written, and a run of 4,096.
const ROOM: usize = 2 * (65_536 + 4_096);

/// Returns the length of the text of a message in `style`, if no allocation is above `ROOM`.
fn shown_in(alloc: Global, style: Style, bytes: &[u8]) -> Option<u64> {
    let heap = Refusing::nth(alloc, 0);
    heap.refuse_above(ROOM);
    let space = Bare::new(bytes).ok()?;
    let mut text = Vec::new(&heap);
    let mut writer = Watched::new(Counted { bytes: 0 });
    show_part(
        &heap,
        &mut text,
        &mut writer,
        &space,
        limits(64),
        style,
        &[],
    )
    .ok()?;
    if heap.greatest() <= ROOM {
        let written = writer.into_inner().bytes;
        Some(written.saturating_add(text.len() as u64))
    } else {
        None
    }
}

/// The text of a list of 1 MiB is written a chunk at a time in each style. The texts are `bytes 1048576 "x..x"`, digits
/// below `bytes 1048576`, and `{"bytes":"78..78"}`.
#[test]
fn room_for_the_text_of_a_long_list(rt: HostRuntime) -> Result<(), Fail> {
    let message = bare_of(rt.alloc(), LONG, LONG_LEN)?;
    for (style, len) in [
        (Style::Quoted, 1_048_593u64),
        (Style::Lines, 2_097_169),
        (Style::Json, 2_097_165),
    ] {
        let shown = shown_in(rt.alloc(), style, message.as_slice());
        assert!(rt; shown == Some(len), "{style:?} {shown:?}");
    }
    Ok(())
}
