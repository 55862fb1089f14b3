//! Tests of reads of a complete input, and of the runs over a bare input.

use crate::picks::Once;
use crate::places::{Places, Single};
use capn_canon::{Form, Refusal};
use capn_serve::{Position, Run, RunFault, WholeInput, read_all, read_bare, run_bare, table_words};
use capn_stream::first;
use capn_words::{Bare, BareFault, Watched};
use std::alloc::{Allocator, Global};
use std::io::{self, Read};
use std::process::Abort;
use std::test::Fail;
use test_allocator::Refusing;

/// The position at which a bare input is refused.
const START: Position = Position {
    index: 0,
    offset: 0,
};

/// Returns the first `most` bytes of `input`, and the length of `input`.
fn taken<R: Read + Drop>(
    alloc: Global,
    input: R,
    most: usize,
) -> Result<(Vec<u8>, usize), RunFault> {
    let mut reader = Watched::new(input);
    let WholeInput { bytes, len } = read_all(alloc, &mut reader, most)?;
    Ok((bytes, len))
}

/// Tests whether `told` has the bytes `want` of an input of `len` bytes.
fn has_taken(told: Result<(Vec<u8>, usize), RunFault>, want: &[u8], len: usize) -> bool {
    match told {
        Ok((bytes, all)) => bytes.as_slice() == want && all == len,
        Err(_) => false,
    }
}

/// All bytes of an input are counted, and as many as fit are kept. How many bytes a read gives doesn't matter.
#[test]
fn the_first_bytes_of_an_input(rt: HostRuntime) {
    let input = b"abcde";
    for most in 0..=6usize {
        let want = &input[..most.min(5)];
        let at_once = taken(rt.alloc(), input.as_slice(), most);
        assert!(rt; has_taken(at_once, want, 5));
        let one_by_one = taken(rt.alloc(), Single { bytes: input }, most);
        assert!(rt; has_taken(one_by_one, want, 5));
    }
    assert!(rt; has_taken(taken(rt.alloc(), b"".as_slice(), 6), b"", 0));
}

/// A reader whose next `left` calls report a full buffer, but write nothing to it.
#[derive(Drop)]
struct Zeros {
    left: u64,
}

impl Read for Zeros {
    fn read(&mut self, buf: &mut [u8]) -> io::Result<usize> {
        if self.left == 0 {
            return Ok(0);
        }
        self.left -= 1;
        Ok(buf.len())
    }
}

/// An input may have 2^32 bytes, which are 65,536 chunks, and no more.
#[test]
fn the_longest_input(rt: HostRuntime) {
    let longest = taken(rt.alloc(), Zeros { left: 65_536 }, 3);
    assert!(rt; has_taken(longest, &[0; 3], 4_294_967_296));
    let longer = taken(rt.alloc(), Zeros { left: 65_537 }, 3);
    assert!(rt; matches!(longer, Err(RunFault::InputTooLong)));
}

/// Returns the fault of `read_all` and that of `read_bare` over a reader that gives `bytes` and then fails.
fn failed(alloc: Global, bytes: &[u8]) -> (Option<RunFault>, Option<RunFault>, bool) {
    let mut reader = Watched::new(Once {
        bytes,
        is_over: false,
    });
    let all = match read_all(alloc, &mut reader, 6) {
        Ok(_) => None,
        Err(fault) => Some(fault),
    };
    let has_failed = reader.failed();
    let mut reader = Watched::new(Once {
        bytes,
        is_over: false,
    });
    let bare = match read_bare(alloc, START, &mut reader) {
        Ok(_) => None,
        Err(fault) => Some(fault),
    };
    (all, bare, has_failed && reader.failed())
}

#[test]
fn a_reader_that_fails(rt: HostRuntime) {
    let want = (Some(RunFault::Io), Some(RunFault::Io), true);
    assert!(rt; failed(rt.alloc(), b"abc") == want);
}

/// Returns whether `read_all` and `read_bare` of `bytes` lack memory, if each allocation is refused.
fn lacks_memory(alloc: Global, bytes: &[u8]) -> (bool, bool) {
    let heap = Refusing::nth(alloc, 0);
    heap.refuse_each();
    let mut reader = Watched::new(bytes);
    let all = matches!(read_all(&heap, &mut reader, 6), Err(RunFault::Memory));
    let mut reader = Watched::new(bytes);
    let bare = matches!(read_bare(&heap, START, &mut reader), Err(RunFault::Memory));
    (all, bare)
}

/// An empty input takes no memory.
#[test]
fn an_input_without_memory(rt: HostRuntime) {
    assert!(rt; lacks_memory(rt.alloc(), b"abc") == (true, true));
    assert!(rt; lacks_memory(rt.alloc(), b"") == (false, false));
}

/// Returns the bytes of a bare input that is read.
fn read<R: Read + Drop>(alloc: Global, input: R) -> Result<Vec<u8>, RunFault> {
    let mut reader = Watched::new(input);
    read_bare(alloc, START, &mut reader)
}

/// Bytes that are not whole words are read, too. Only a run refuses them.
#[test]
fn the_bytes_of_a_bare_input(rt: HostRuntime) {
    let words = [7; 16];
    for len in [0, 3, 8, 16usize] {
        let told = read(rt.alloc(), &words[..len]);
        assert!(rt; told.is_ok_and(|bytes| bytes.as_slice() == &words[..len]));
    }
    let told = read(rt.alloc(), Single { bytes: &words });
    assert!(rt; told.is_ok_and(|bytes| bytes.as_slice() == words.as_slice()));
}

/// Returns the result of a run over the bare `input`, its output, and the position after it.
fn served<R: Read + Drop, A: Allocator + Copy>(
    alloc: Global,
    heap: A,
    input: R,
) -> (Result<(), RunFault>, Vec<u8>, Position) {
    let mut run = Run::new(Places);
    let mut reader = Watched::new(input);
    let mut writer = Watched::new(Vec::new(alloc));
    let ending = run_bare(heap, &mut run, &mut reader, &mut writer);
    let Run { service: _, at } = run;
    (ending, writer.into_inner(), at)
}

/// A bare input is one message, whose frame is the input.
#[test]
fn a_run_over_a_bare_input(rt: HostRuntime) {
    let (ending, text, at) = served(rt.alloc(), rt.alloc(), [7; 16].as_slice());
    assert!(rt; ending == Ok(()) && text.as_slice() == [0, 0, 16].as_slice());
    assert!(rt; at.index == 1 && at.offset == 16);
}

/// After a refused input, or one that is not read to its end, nothing is written, and the position is the first.
#[test]
fn a_bare_input_that_is_not_served(rt: HostRuntime) {
    let (ending, text, at) = served(rt.alloc(), rt.alloc(), [7; 11].as_slice());
    let refused = RunFault::Refused(START, Refusal::Bare(BareFault::NotWhole(11)));
    assert!(rt; ending == Err(refused) && text.is_empty() && at == START);
    let broken = Once {
        bytes: &[7; 16],
        is_over: false,
    };
    let (ending, text, at) = served(rt.alloc(), rt.alloc(), broken);
    assert!(rt; ending == Err(RunFault::Io) && text.is_empty() && at == START);
    let heap = Refusing::nth(rt.alloc(), 0);
    heap.refuse_each();
    let (ending, text, at) = served(rt.alloc(), &heap, [7; 16].as_slice());
    assert!(rt; ending == Err(RunFault::Memory) && text.is_empty() && at == START);
}

/// The tables of one segment, of two and of three, each with the number of words of the table. No segment has a word.
const TABLES: [(&[u8], u32); 3] = [
    (&[0, 0, 0, 0, 0, 0, 0, 0], 1),
    (&[1, 0, 0, 0, 0, 0, 0, 0, 0, 0, 0, 0, 0, 0, 0, 0], 2),
    (&[2, 0, 0, 0, 0, 0, 0, 0, 0, 0, 0, 0, 0, 0, 0, 0], 2),
];

#[test]
fn the_words_of_a_table(rt: HostRuntime) -> Result<(), Fail> {
    for (bytes, words) in TABLES {
        let Ok((message, _taken)) = first(rt.alloc(), bytes, 8) else {
            return Err(Fail::new("no frame"));
        };
        assert!(rt; table_words(Form::Stream, &message) == words);
        assert!(rt; table_words(Form::Packed, &message) == words);
    }
    let Ok(bare) = Bare::new(&[7; 16]) else {
        return Err(Fail::new("no words"));
    };
    assert!(rt; table_words(Form::Bare, &bare) == 0);
    Ok(())
}
