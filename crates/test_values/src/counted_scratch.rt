//! Tests of a task that reads bytes and writes scratch by calls that count.

use capn_scratch::{AskedBytes, BytesTask, CountedBytes, CountedScratch, Steps};
use std::sync::ledger::Ledger;

/// A task that tells what it read.
#[derive(Drop)]
struct Reading;

/// The results of a task's reads: the lengths of the bytes and of the scratch, the second byte, the number in the
/// second four bytes, and the lengths and first bytes of two parts.
#[derive(Clone, Copy, Debug, PartialEq, Eq)]
struct Read {
    bytes: usize,
    words: usize,
    second: u8,
    number: u32,
    part: (usize, u8),
    rest: (usize, u8),
}

impl BytesTask for Reading {
    type Told = Read;

    ghost use Rattle.std.specs.Prelude.{⊤};

    ghost tells = { λ _ _ _ _ _ _. ⊤ };

    ghost most = { λ _ _ _. 6 };

    fn run<L: Ledger>(
        self,
        bytes: CountedBytes<'_, L>,
        scratch: CountedScratch<'_, L>,
        _out: &mut [u8],
        steps: &mut Steps<L>,
    ) -> Read {
        let mut scratch = scratch;
        bytes.bounds();
        let part = bytes.part(2, 5);
        let rest = bytes.rest(3);
        let read = Read {
            bytes: bytes.len(),
            words: scratch.len(),
            second: bytes.byte(1, steps),
            number: bytes.entry(1, steps),
            part: (part.len(), part.byte(0, steps)),
            rest: (rest.len(), rest.byte(0, steps)),
        };
        scratch.put(1, 0x0807_0605_0403_0201, steps);
        steps.tick();
        read
    }
}

#[test]
fn a_task_on_counted_bytes(rt: HostRuntime) {
    let bytes = [10u8, 11, 12, 13, 14, 15, 0, 0, 99];
    let mut scratch = [[0xaa; 8]; 3];
    let read = bytes.as_slice().ask_bytes(Reading, &mut scratch, &mut []);
    let want = Read {
        bytes: 9,
        words: 3,
        second: 11,
        number: 0x0f0e,
        part: (3, 12),
        rest: (6, 13),
    };
    assert!(rt; read == want);
    assert!(rt; scratch == [[0xaa; 8], [1, 2, 3, 4, 5, 6, 7, 8], [0xaa; 8]]);
}
