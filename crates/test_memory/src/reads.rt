//! A test of the bytes left to a reader after a refused allocation.

use crate::refused::stream_of_65;
use capn_stream::{ReadFault, read_message};
use capn_words::{MOST_MESSAGE_WORDS, Watched};
use std::alloc::Global;
use std::test::Fail;
use test_allocator::Refusing;

/// Reads a message while allocation `number` is refused. Returns whether there was no allocation with that number, and
/// the number of bytes left to the reader. The number of bytes is `None` if the call ended wrongly. The call has to
/// read the message if no allocation was refused, and otherwise to report `Memory`.
fn left_by(alloc: Global, stream: &[u8], number: u64) -> (bool, Option<usize>) {
    let short = Refusing::nth(alloc, number);
    let mut reader = Watched::new(stream);
    let is_read = match read_message(&short, &mut reader, MOST_MESSAGE_WORDS) {
        Ok(Some(_)) => Some(true),
        Err(ReadFault::Memory) => Some(false),
        _ => None,
    };
    let is_spared = short.has_spared();
    if is_read == Some(is_spared) {
        return (is_spared, Some(reader.into_inner().len()));
    }
    (is_spared, None)
}

/// If an allocation for a message is refused, no byte of the next message is read.
#[test]
fn no_byte_of_the_next_message_is_read(rt: HostRuntime) -> Result<(), Fail> {
    let mut twice = stream_of_65(rt.alloc())?;
    let once = twice.len();
    twice.extend_from_within(..)?;
    for number in 1..1_000u64 {
        match left_by(rt.alloc(), twice.as_slice(), number) {
            (true, Some(left)) if 1 < number && left == once => return Ok(()),
            (false, Some(left)) if once <= left => {}
            _ => assert!(rt; false, "growth {number}"),
        }
    }
    Err(Fail::new("a thousand growths"))
}
