//! Tests of the greatest length of an input that must be exactly one message.

use capn_tool::{Form, Limits, Refusal, Show, Style, ToolFault, Watched, show_parts};
use std::alloc::Global;
use std::io::{self, Read};
use std::process::Abort;

/// A reader whose next `left` calls report a full buffer, but write nothing to it. The buffer holds zeros.
#[derive(Drop)]
struct Zeros {
    left: u64,
}

impl Read for Zeros {
    fn read(&mut self, buf: &mut [u8]) -> io::Result<usize> {
        if self.left == 0 {
            return Ok(0);
        }
        self.left -= 1;
        Ok(buf.len())
    }
}

/// The greatest number of chunks of 65,536 bytes that a run reads.
const ALL: u64 = 65_536;

/// Returns the result of `show --one --json` over an input of `pieces` chunks.
fn outcome_of(alloc: Global, form: Form, pieces: u64) -> Result<(), ToolFault> {
    let show = Show {
        form,
        limits: Limits::new(1_000, 1_000, 64).unwrap_or(Limits::usual()),
        style: Style::Json,
        offsets: false,
        ways: false,
        one: true,
        path: None,
    };
    let mut reader = Watched::new(Zeros { left: pieces });
    let mut writer = Watched::new(Vec::new(alloc));
    show_parts(alloc, &show, &mut reader, &mut writer)
}

/// An input of 2^32 bytes is read whole. Zeros are a message without words, followed by more bytes. A longer input is
/// refused as too long.
#[test]
fn one_message_is_shown_of_2_to_the_32_bytes(rt: HostRuntime) {
    let refused = Err(ToolFault::Refused(Refusal::Trailing(8)));
    assert!(rt; outcome_of(rt.alloc(), Form::Stream, ALL) == refused);
    for form in [Form::Stream, Form::Packed] {
        let long = outcome_of(rt.alloc(), form, ALL.saturating_add(1));
        assert!(rt; long == Err(ToolFault::InputTooLong));
    }
}
