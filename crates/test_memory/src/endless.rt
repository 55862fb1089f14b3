//! Tests of inputs too long for a command to hold. The command holds no more than its limits allow, and its result is
//! still right.

use capn_canon::{Form, Refusal};
use capn_commands::{Command, MessageText, ToolFault, run};
use capn_pack::UnpackFault;
use capn_stream::FrameFault;
use capn_walk::Limits;
use capn_words::Watched;
use std::alloc::Global;
use std::io::{self, Read};
use std::process::Abort;
use test_allocator::Refusing;

/// A reader whose next `left` calls report a full buffer. Each of them writes `first` to the start of the buffer, and
/// leaves the rest unchanged. The rest is zero if nothing was written there.
#[derive(Drop)]
struct Pieces<'a> {
    first: &'a [u8],
    left: u64,
}

impl Read for Pieces<'_> {
    fn read(&mut self, buf: &mut [u8]) -> io::Result<usize> {
        if self.left == 0 {
            return Ok(0);
        }
        self.left -= 1;
        let len = self.first.len().min(buf.len());
        buf[..len].copy_from_slice(&self.first[..len]);
        Ok(buf.len())
    }
}

/// The number of chunks of 65,536 bytes in a mebibyte.
const MEBIBYTE: u64 = 16;

/// One more than the greatest number of chunks that a run reads.
const ENDLESS: u64 = 65_537;

/// The limit on the words of a message.
const WORDS: u32 = 1_000;

/// Twice the bytes of a message of `WORDS` words and of the longest table.
const ROOM: usize = 2 * 8 * (1_000 + 2_049);

/// A command that holds all that it reads.
#[derive(Clone, Copy)]
enum Order {
    Unpack,
    Canonical(Form),
    One(MessageText, Form),
}

/// Returns the result of `order` over `pieces` chunks, each begun by `first`, with allocations above `ROOM` refused.
fn outcome_of(alloc: Global, order: Order, first: &[u8], pieces: u64) -> Result<(), ToolFault> {
    let limits = Limits::new(WORDS, 1_000, 64).unwrap_or(Limits::usual());
    let command = match order {
        Order::Unpack => Command::Unpack(WORDS),
        Order::Canonical(form) => Command::Canonical(form, limits),
        Order::One(piece, form) => Command::One(piece, form, limits),
    };
    let heap = Refusing::nth(alloc, 0);
    heap.refuse_above(ROOM);
    let mut reader = Watched::new(Pieces {
        first,
        left: pieces,
    });
    let mut writer = Watched::new(Vec::new(alloc));
    run(&heap, command, &mut reader, &mut writer)
}

#[test]
fn an_input_without_end(rt: HostRuntime) {
    for order in [
        Order::Unpack,
        Order::Canonical(Form::Stream),
        Order::Canonical(Form::Packed),
        Order::One(MessageText::Text, Form::Stream),
        Order::One(MessageText::Digest, Form::Packed),
    ] {
        for first in [b"".as_slice(), b"y\ny\ny\ny\n".as_slice()] {
            let outcome = outcome_of(rt.alloc(), order, first, ENDLESS);
            assert!(rt; outcome == Err(ToolFault::InputTooLong));
        }
    }
}

/// The first bytes of streams, each with the reason why the stream is refused.
const STREAMS: [([u8; 8], Refusal); 4] = [
    ([0; 8], Refusal::Trailing(8)),
    ([0, 0, 0, 0, 0xe8, 3, 0, 0], Refusal::Trailing(8_008)),
    (
        [0, 0, 0, 0, 0xe9, 3, 0, 0],
        Refusal::Frame(FrameFault::TooManyWords(1_001)),
    ),
    (
        [0xff, 0xff, 0xff, 0xff, 0, 0, 0, 0],
        Refusal::Frame(FrameFault::TooManySegments(0x1_0000_0000)),
    ),
];

#[test]
fn a_mebibyte_behind_a_message(rt: HostRuntime) {
    for (first, refusal) in STREAMS {
        for stream in [
            Order::Canonical(Form::Stream),
            Order::One(MessageText::Text, Form::Stream),
            Order::One(MessageText::Price, Form::Stream),
            Order::One(MessageText::Digest, Form::Stream),
        ] {
            let outcome = outcome_of(rt.alloc(), stream, &first, MEBIBYTE);
            assert!(rt; outcome == Err(ToolFault::Refused(refusal)), "{refusal}");
        }
    }
}

#[test]
fn a_mebibyte_of_packed_zeros(rt: HostRuntime) {
    for (order, at) in [
        (Order::Unpack, 2_000u64),
        (Order::Canonical(Form::Packed), 6_098),
        (Order::One(MessageText::Price, Form::Packed), 6_098),
    ] {
        let outcome = outcome_of(rt.alloc(), order, b"", MEBIBYTE);
        let refusal = Refusal::Packed(UnpackFault::TooLong { at });
        assert!(rt; outcome == Err(ToolFault::Refused(refusal)), "{at}");
    }
}
