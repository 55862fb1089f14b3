//! Tests of hostile messages, whose words are random pointers, tag words and numbers.

use crate::agreement::{Answer, agreed};
use crate::random::Random;
use crate::segments::{At, Segments, capability, far, list, node, offset_to, tag};
use capn_canon::Refusal;
use capn_walk::{Fault, Limits};
use std::alloc::{AllocError, Global};
use std::process::Abort;
use std::test::Fail;

// Returns an index below `count`, or rarely `count` itself or `greatest`.
fn any_index(random: &mut Random, count: u64, greatest: u64) -> u64 {
    match random.below(24) {
        0 => count,
        1 => greatest,
        _ => random.below(count),
    }
}

// Returns a place, mostly one in a message of `segments` segments of `words` words each.
fn any_place(random: &mut Random, segments: u64, words: u64) -> At {
    let segment = any_index(random, segments, 0xffff_ffff);
    let word = any_index(random, words, 0x1fff_ffff);
    At { segment, word }
}

// Returns the offset field of a pointer at word `pointer`. Mostly the offset leads to one of the segment's `words`
// words, or to the word after the last. Rarely it is 2^29 - 2 or -2^29.
fn any_offset(random: &mut Random, words: u64, pointer: u64) -> u64 {
    match random.below(24) {
        0 => offset_to(0x1fff_ffff, 0),
        1 => offset_to(0x2000_0001, 0),
        2 => offset_to(pointer, pointer),
        _ => offset_to(random.below(words.saturating_add(1)), pointer),
    }
}

// Returns a small number, or `greatest`, or the number before `greatest`.
fn any_size(random: &mut Random, greatest: u64) -> u64 {
    match random.below(16) {
        0 => greatest,
        1 => greatest.saturating_sub(1),
        _ => random.below(4),
    }
}

// Returns the tag word of a composite list. Its row count is small, or so great that it would be a negative offset.
fn any_tag(random: &mut Random) -> u64 {
    let count = any_size(random, 0x3fff_ffff);
    let words = any_size(random, 0xffff);
    let slots = any_size(random, 0xffff);
    tag(count, words, slots)
}

fn any_list(random: &mut Random) -> u64 {
    let code = random.below(8);
    let size = any_size(random, 0x1fff_ffff);
    let count = match code {
        7 => size.saturating_add(random.below(4)),
        _ => size.saturating_mul(random.below(6)),
    };
    list(code, count)
}

// Returns a word to write at word `at` of a segment, in a message of `segments` segments of `words` words each.
fn any_word(random: &mut Random, segments: u64, words: u64, at: u64) -> u64 {
    match random.below(32) {
        0..=12 => {
            let sizes = node(any_size(random, 0xffff) / 2, any_size(random, 0xffff));
            sizes | any_offset(random, words, at)
        }
        13..=19 => any_list(random) | any_offset(random, words, at),
        20..=23 => far(any_place(random, segments, words), false),
        24..=26 => far(any_place(random, segments, words), true),
        27..=29 => any_tag(random),
        30 => capability(random.below(4)),
        _ => random.word() >> random.below(63),
    }
}

// Returns the root word: a pointer to a struct or a list, a far pointer, or a capability.
fn any_root(random: &mut Random, segments: u64, words: u64) -> u64 {
    match random.below(16) {
        0 => return any_list(random) | any_offset(random, words, 0),
        1 => return list(6, random.below(4)) | offset_to(random.below(words), 0),
        2 => return capability(random.below(4)),
        _ => {}
    }
    if random.below(6) == 0 {
        let is_double = random.below(3) == 0;
        return far(any_place(random, segments, words), is_double);
    }
    let sizes = node(random.below(3), random.below(4).saturating_add(1));
    sizes | offset_to(random.below(words), 0)
}

// Returns a message of one to three segments. One message in a hundred has no words.
fn message(alloc: Global, random: &mut Random) -> Result<Vec<u8>, AllocError> {
    let count = random.below(3).saturating_add(1);
    let words = match random.below(100) {
        0 => 0,
        _ => random.below(12).saturating_add(2),
    };
    let zeros = random.below(30);
    let mut segments = Segments::new(alloc, count)?;
    for segment in 0..count {
        for at in 0..words {
            let word = any_word(random, count, words, at);
            let is_zero = random.below(32) < zeros;
            segments.push(segment, if is_zero { 0 } else { word })?;
        }
    }
    let root = At {
        segment: 0,
        word: 0,
    };
    segments.set(root, any_root(random, count, words));
    segments.stream(alloc)
}

// Returns limits with a small budget. Their depth is 1 to 6 objects half the time, and otherwise 64 or 70.
fn any_limits(random: &mut Random) -> Limits {
    let budget = match random.below(8) {
        0 => 0,
        1 => 200,
        _ => random.below(64) as u32,
    };
    let depth = match random.below(4) {
        0 => 64,
        1 => 70,
        _ => random.below(6).saturating_add(1) as u32,
    };
    Limits::new(1_000, budget, depth).unwrap_or(Limits::usual())
}

// Returns the bit that stands for `answer`: the bit of the fault if the walk stopped, and otherwise the first bit.
fn ending_of(answer: &Answer) -> u32 {
    let Err(Refusal::Walk(stopped)) = answer else {
        return 1;
    };
    match stopped.fault {
        Fault::NoRoot => 2,
        Fault::RootKind => 4,
        Fault::Reserved => 8,
        Fault::NoSegment => 16,
        Fault::PadRange => 32,
        Fault::BadPad => 64,
        Fault::Range => 128,
        Fault::BadTag => 256,
        Fault::TagOverrun => 512,
        Fault::TooDeep => 1_024,
        Fault::OverBudget => 2_048,
        Fault::Memory => 4_096,
    }
}

// Asserts that all calls agree on the message of `seed`, and returns the bit of `ending_of` for their answer.
fn ending(rt: &impl Abort, alloc: Global, seed: u64) -> Result<u32, AllocError> {
    let mut random = Random::new(seed);
    let stream = message(alloc, &mut random)?;
    let limits = any_limits(&mut random);
    let answer = agreed(alloc, stream.as_slice(), limits);
    match &answer {
        Ok(answer) => return Ok(ending_of(answer)),
        Err(call) => assert!(rt; false, "{call} at seed {seed}"),
    }
    Ok(0)
}

// All calls agree on messages with cycles of near and of far pointers, overlaps, shared rows, extreme tags and offsets,
// and landing pads that point to pads. They agree in each result, and in the place, the price and the visits of each
// refusal. Every ending occurs except a refused allocation.
#[test]
fn a_hundred_thousand_messages(rt: HostRuntime) -> Result<(), Fail> {
    let mut met = 0;
    let mut accepted = 0u64;
    for seed in 0..100_000u64 {
        let ending = ending(&rt, rt.alloc(), seed)?;
        met |= ending;
        if ending == 1 {
            accepted = accepted.saturating_add(1);
        }
    }
    assert!(rt; met == 4_095 && 10_000 < accepted, "{met} {accepted}");
    Ok(())
}
