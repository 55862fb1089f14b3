//! Tests of the lines about canonical form, and of the measures of surveyed messages.

use crate::words::bytes_of;
use capn_canon::{MeasuredBare, SurveyedBare, measure};
use capn_mismatch::{lines_of_measured, measure_surveyed};
use capn_walk::{Limits, survey_depth};
use capn_words::Bare;
use std::alloc::Global;
use std::test::Fail;

/// Tests whether a bare message has the lines `lines`, if a table of `table` words stands before its words.
fn reads(alloc: Global, words: &[u64], table: u32, lines: &str) -> Result<bool, Fail> {
    let bytes = bytes_of(alloc, words)?;
    let Ok(bare) = Bare::new(bytes.as_slice()) else {
        return Err(Fail::new("no words"));
    };
    let usual = Limits::usual();
    let Ok(surveyed) = survey_depth(alloc, &bare, usual) else {
        return Err(Fail::new("refused"));
    };
    let measured = measure_surveyed(&bare, usual, surveyed);
    let Ok(found) = lines_of_measured(alloc, &bare, usual, measured, 16, table) else {
        return Err(Fail::new("out of memory"));
    };
    let text = format!(in alloc; "{found}")?;
    Ok(text.as_str() == lines)
}

/// Each kind of mismatch has its lines. The causes are a zero word at the end of the root, a tag word with sizes and no
/// rows, a byte of padding, a word after the value, and a capability. The last message is canonical.
#[test]
fn lines_of_each_kind(rt: HostRuntime) -> Result<(), Fail> {
    let alloc = rt.alloc();
    let pointer =
        "canonical: no: at byte 24: 0000000002000000 (struct of 2 words and 0 slots, offset 0), \
        canonical 0000000001000000 (struct of 1 words and 0 slots, offset 0), the pointer at root\n\
        lengths: 24 bytes, canonical 16\n";
    assert!(rt; reads(alloc, &[0x2_0000_0000, 5, 0], 1, pointer)?);
    let tag = [0x1_0000_0000_0000, 0x7_0000_0001, 0x1_0000_0000];
    let line =
        "canonical: no: at byte 32: 0000000001000000, canonical 0000000000000000, the tag of 0\n";
    assert!(rt; reads(alloc, &tag, 0, line)?);
    let bytes = [0x1_0000_0000_0000, 0x1a_0000_0001, 0x403_0201];
    let line =
        "canonical: no: at byte 32: 0102030400000000, canonical 0102030000000000, the last word of 0\n";
    assert!(rt; reads(alloc, &bytes, 0, line)?);
    let after = "canonical: no: at byte 32: 0700000000000000, canonical nothing, after the value\n\
        lengths: 24 bytes, canonical 16\n";
    assert!(rt; reads(alloc, &[0x1_0000_0000, 5, 7], 0, after)?);
    let line = "canonical: no: capability 7 at 0\n";
    assert!(rt; reads(alloc, &[0x1_0000_0000_0000, 0x7_0000_0003], 0, line)?);
    assert!(rt; reads(alloc, &[0x1_0000_0000, 5], 1, "canonical: yes\n")?);
    Ok(())
}

/// Tests whether a bare message that was measured has the lines `lines`, if a table of `table` words stands before it.
fn measured_reads(alloc: Global, words: &[u64], table: u32, lines: &str) -> Result<bool, Fail> {
    let bytes = bytes_of(alloc, words)?;
    let Ok(bare) = Bare::new(bytes.as_slice()) else {
        return Ok(false);
    };
    let usual = Limits::usual();
    let Ok(measured) = measure(alloc, &bare, usual) else {
        return Ok(false);
    };
    let Ok(found) = lines_of_measured(alloc, &bare, usual, measured, 16, table) else {
        return Ok(false);
    };
    let text = format!(in alloc; "{found}")?;
    Ok(text.as_str() == lines)
}

/// The lines are right for a measured message with a word after its value and with a table of one word.
#[test]
fn lines_of_a_measured_message(rt: HostRuntime) -> Result<(), Fail> {
    let lines = "canonical: no: at byte 40: 0700000000000000, canonical nothing, after the value\n\
        lengths: 24 bytes, canonical 16\n";
    assert!(rt; measured_reads(rt.alloc(), &[0x1_0000_0000, 5, 7], 1, lines)?);
    Ok(())
}

/// Tests whether a surveyed bare message has the given measure: price and visits in `costs`, first capability,
/// canonical or not, and depth.
fn is_measured(
    alloc: Global,
    words: &[u64],
    costs: (u32, u32),
    capability: Option<u32>,
    is_canonical: bool,
    depth: u32,
) -> Result<bool, Fail> {
    let bytes = bytes_of(alloc, words)?;
    let Ok(bare) = Bare::new(bytes.as_slice()) else {
        return Ok(false);
    };
    let Ok(surveyed) = survey_depth(alloc, &bare, Limits::usual()) else {
        return Ok(false);
    };
    let (paid, visits) = costs;
    let want = MeasuredBare {
        survey: SurveyedBare {
            paid,
            visits,
            capability,
            is_canonical,
        },
        depth,
    };
    Ok(measure_surveyed(&bare, Limits::usual(), surveyed) == want)
}

/// The measures are right for a struct of one word, the struct with a word after it, and a struct with a capability.
#[test]
fn measures_of_surveyed_messages(rt: HostRuntime) -> Result<(), Fail> {
    let alloc = rt.alloc();
    let cap = [0x1_0000_0000_0000, 0x2_0000_0003];
    let are = is_measured(alloc, &[0x1_0000_0000, 5], (2, 1), None, true, 1)?
        && is_measured(alloc, &[0x1_0000_0000, 5, 7], (2, 1), None, false, 1)?
        && is_measured(alloc, &cap, (2, 2), Some(2), false, 1)?;
    assert!(rt; are);
    Ok(())
}
