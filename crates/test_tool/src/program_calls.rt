//! Tests of the program over a reader of chunks, with counted calls.

use crate::pieces::{Calls, FRAMED, Sink, Source, no_calls};
use capn_tool::program;
use capn_words::Watched;
use std::alloc::{AllocError, Global};
use std::test::Fail;

/// Returns the status and the output of the program with `words` over chunks of `piece` bytes. The calls of its reader
/// and its writer are counted in `calls`, and the calls of its error writer in `told`.
fn programmed(
    alloc: Global,
    words: &[&str],
    input: &[u8],
    piece: usize,
    calls: &Calls,
    told: &Calls,
) -> (u8, Vec<u8>) {
    let mut reader = Watched::new(Source {
        bytes: input,
        piece,
        calls,
    });
    let mut writer = Watched::new(Sink {
        bytes: Vec::new(alloc),
        calls,
    });
    let mut errors = Watched::new(Sink {
        bytes: Vec::new(alloc),
        calls: told,
    });
    let status = program(alloc, words, &mut reader, &mut writer, &mut errors);
    (status, writer.into_inner().bytes)
}

/// The number of bytes of a chunk.
const PIECE: usize = 65_536;

/// Returns the output of the program over whole chunks. Its status must be 0. It must call its reader once for each
/// chunk and once more, and its writer at most `writes` times for each chunk and once more.
fn in_pieces(alloc: Global, words: &[&str], input: &[u8], writes: u64) -> Option<Vec<u8>> {
    let calls = no_calls();
    let told = no_calls();
    let (status, written) = programmed(alloc, words, input, PIECE, &calls, &told);
    let pieces = input.len().div_ceil(PIECE) as u64;
    let is_right = calls.reads.get() == pieces.saturating_add(1)
        && calls.writes.get() <= pieces.saturating_mul(writes).saturating_add(1);
    if status == 0 && is_right {
        Some(written)
    } else {
        None
    }
}

/// Returns a stream of `count` different structs of two words.
fn different(alloc: Global, count: u32) -> Result<Vec<u8>, AllocError> {
    let mut stream = Vec::new(alloc);
    for number in 0..count {
        stream.extend_from_slice(&FRAMED[..16])?;
        stream.extend_from_slice(&number.to_le_bytes())?;
        stream.extend_from_slice(&FRAMED[20..])?;
    }
    Ok(stream)
}

#[test]
fn the_frames_of_a_piece_are_written_by_two_calls_at_most(rt: HostRuntime) -> Result<(), Fail> {
    let stream = different(rt.alloc(), 10_000)?;
    for words in [
        ["capn", "pick"].as_slice(),
        ["capn", "pick", "--only", "1-10000,10003"].as_slice(),
        ["capn", "filter"].as_slice(),
        ["capn", "uniq"].as_slice(),
        ["capn", "canonical", "--framed"].as_slice(),
    ] {
        let written = in_pieces(rt.alloc(), words, &stream, 2);
        assert!(rt;
            matches!(written, Some(text) if text.len() == stream.len()),
            "{}",
            words[1]
        );
    }
    Ok(())
}

#[test]
fn bytes_are_packed_and_unpacked_by_pieces(rt: HostRuntime) -> Result<(), Fail> {
    let stream = different(rt.alloc(), 10_000)?;
    for (pack, unpack) in [
        (
            ["capn", "pack", "--streaming"].as_slice(),
            ["capn", "unpack", "--streaming"].as_slice(),
        ),
        (["capn", "pack"].as_slice(), ["capn", "unpack"].as_slice()),
    ] {
        let Some(packed) = in_pieces(rt.alloc(), pack, &stream, 1) else {
            assert!(rt; false, "not packed by pieces");
            return Ok(());
        };
        let unpacked = in_pieces(rt.alloc(), unpack, &packed, 5);
        assert!(rt; matches!(unpacked, Some(text) if text.as_slice() == stream.as_slice()));
    }
    Ok(())
}

#[test]
fn a_fault_is_told_by_one_write(rt: HostRuntime) {
    for words in [
        ["capn", "check"].as_slice(),
        ["capn", "list"].as_slice(),
        ["capn", "unpack", "--streaming"].as_slice(),
    ] {
        let calls = no_calls();
        let told = no_calls();
        let (status, _) = programmed(rt.alloc(), words, &[7; 5], PIECE, &calls, &told);
        assert!(rt; status == 1);
        assert!(rt; told.writes.get() == 1);
    }
}
