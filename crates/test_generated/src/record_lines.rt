//! Tests of the lines of a message as C reads them. Each word of a message is in one line.

use crate::writing::message;
use capn_answers::{CapnLine, lines_in};
use capn_canon::{Form, survey_bytes};
use capn_walk::Limits;
use std::alloc::Global;
use std::test::Fail;

/// A line that no message has.
const BLANK: CapnLine = CapnLine {
    offset: 99,
    segment: 99,
    word: 99,
    words: 0,
    times: 99,
    slot_segment: 99,
    slot_word: 99,
    cut: 99,
    not_zero: 99,
    kind: 99,
    flags: 99,
};

/// Returns a place for `count` lines.
fn room(alloc: Global, count: usize) -> Result<Vec<CapnLine>, Fail> {
    let mut lines = Vec::new(alloc);
    for _ in 0..count {
        lines.push(BLANK)?;
    }
    Ok(lines)
}

/// Returns the number of words of `lines` after the segment table, or `None` if a line doesn't begin where the line
/// before it ends. `table` is the number of bytes of the segment table.
fn words_in_order(lines: &[CapnLine], table: u64) -> Option<u64> {
    let mut words = 0u64;
    for line in lines {
        if line.offset != table + 8 * words || line.words == 0 || 7 < line.kind {
            return None;
        }
        words += line.words as u64;
    }
    Some(words)
}

/// The lines of a message cover its words in order. Without a place for each line, the number of lines is returned, and
/// the place is unchanged.
#[test]
fn lines_of_generated_messages(rt: HostRuntime) -> Result<(), Fail> {
    let alloc = rt.alloc();
    let usual = Limits::usual();
    for seed in 0..60u64 {
        let segments = 1 + seed % 3;
        let stream = message(alloc, seed, segments)?;
        let table = 8 * (segments / 2 + 1);
        let words = (stream.len() as u64 - table) / 8;
        let mut lines = room(alloc, words as usize)?;
        let Ok(found) = lines_in(alloc, Form::Stream, &stream, usual, &mut lines) else {
            return Err(Fail::new("refused"));
        };
        let count = found.lines as usize;
        assert!(rt;
            words_in_order(&lines[..count], table) == Some(words),
            "at seed {seed}"
        );
        assert!(rt; survey_bytes(alloc, Form::Stream, &stream, usual) == Ok(found.survey));
        let mut short = room(alloc, count - 1)?;
        let Ok(again) = lines_in(alloc, Form::Stream, &stream, usual, &mut short) else {
            return Err(Fail::new("refused"));
        };
        assert!(rt; again.lines == found.lines);
        for line in short.iter() {
            assert!(rt; line.words == 0);
        }
    }
    Ok(())
}
