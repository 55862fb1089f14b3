//! Answers the cases of standard input that call the libraries. A case has two lines: its name, and a call. A space
//! separates the words of a call. Bytes are hexadecimal, and `-` stands for none. A call after the word `plain` pays by
//! the plain tariff, any other by the strict one. The answers must equal the stored output, which no run of this
//! program wrote. Each call is made once with enough memory, and then with one allocation refused: with each in turn,
//! or with about 64 of them after the word `few`. The message of `canonicalise` is also cut at each byte. The answer is
//! printed only if the call reported each refused allocation, gave its answer afterwards, and gave the right answer for
//! each prefix.
#![tactic(auto)]

mod cuts;
mod frames;
mod messages;
mod packing;
mod pieces;
mod refusals;
mod slots;
mod unpackers;
mod views;
mod visits;

use anyhow::{Result, bail};
use capn_value::Tariff;
use conformance_cases::{Answers, Heap, answer_each, growths_and_call, word_at};
use std::alloc::Global;
use std::io::BufRead;
use visits::Asked;

/// Returns the tariff of a call, and the words of the call.
fn tariff_and_call<'w, 'a>(words: &'w [&'a str]) -> (Tariff, &'w [&'a str]) {
    match words {
        [first, call @ ..] if *first == "plain" => (Tariff::Plain, call),
        _ => (Tariff::Strict, words),
    }
}

/// The answers for calls of the libraries.
#[derive(Clone, Copy)]
struct Calls;

impl Answers for Calls {
    fn answer(&self, alloc: Global, heap: &Heap, words: &[&str]) -> Result<String> {
        let (tariff, words) = tariff_and_call(words);
        match word_at(words, 0)? {
            "pack" => packing::pack_answer(alloc, heap, words),
            "unpack" => packing::unpack_answer(alloc, heap, words),
            "limits" => messages::limits_answer(alloc, words),
            "resolve" => slots::resolve_answer(alloc, heap, words),
            "walk" => visits::visits_answer(alloc, heap, Asked::Walk, words, tariff),
            "canonicalise" => messages::canonicalise_answer(alloc, heap, words, tariff),
            "again" => messages::again_answer(alloc, heap, words, tariff),
            "equal" => messages::equal_answer(alloc, heap, words),
            "first" => frames::first_answer(alloc, heap, words),
            "frame" => frames::frame_answer(alloc, heap, words),
            "tag" => packing::tag_answer(alloc, words),
            "framer" => pieces::framer_answer(alloc, heap, words),
            "pieces" => pieces::pieces_answer(alloc, heap, words),
            "unpacker" => unpackers::unpacker_answer(alloc, heap, words),
            "read" => pieces::read_answer(alloc, heap, words),
            "write" => pieces::write_answer(alloc, heap, words),
            "survey" => visits::visits_answer(alloc, heap, Asked::Survey, words, tariff),
            "is_canonical" => visits::is_canonical_answer(alloc, heap, words, tariff),
            "view" => views::view_answer(alloc, heap, words, tariff),
            call => bail!("no call {call:?}"),
        }
    }
}

/// Returns the answer for a call, as a line. Checks the call with each allocation refused, and with its message cut at
/// each byte.
fn answer_line(alloc: Global, line: &str) -> Result<String> {
    let words: Vec<&str> = line.split(' ').collect(alloc)?;
    let (growths, call) = growths_and_call(words.as_slice());
    let answer = answer_each(alloc, &Calls, call, growths)?;
    cuts::cut_each(alloc, call, answer.as_str())?;
    Ok(answer)
}

fn main(rt: HostRuntime) -> Result<()> {
    let mut is_name = true;
    for line in rt.reader().lines(rt.alloc()) {
        let line = line?;
        if is_name {
            println!(rt; "{line}")?;
        } else {
            let answer = answer_line(rt.alloc(), line.as_str())?;
            println!(rt; "{answer}")?;
        }
        is_name = !is_name;
    }
    Ok(())
}
