//! Answers the cases of standard input that are runs of the program, by the output and the status of each run. A case
//! has two lines: its name, and a call. A space separates the words of a call. Bytes are hexadecimal, and `-` stands
//! for none. The answers must equal the stored output, which no run of this program wrote. Each call is made once with
//! enough memory, and then with each allocation refused in turn, or with about 64 of them after the word `few`. The
//! answer is printed only if the call reported each refused allocation, and gave its answer afterwards.
#![tactic(auto)]

mod archives;
mod runs;

use anyhow::{Result, bail};
use conformance_cases::{Answers, Heap, answer_each, growths_and_call, word_at};
use std::alloc::Global;
use std::io::BufRead;

/// The answers for runs of the program and of its commands.
#[derive(Clone, Copy)]
struct RunAnswers;

impl Answers for RunAnswers {
    fn answer(&self, alloc: Global, heap: &Heap, words: &[&str]) -> Result<String> {
        match word_at(words, 0)? {
            "run" => runs::run_answer(alloc, heap, words),
            "usage" => runs::usage_answer(alloc, words),
            "archive" => archives::archive_answer(alloc, heap, words),
            "order" => archives::order_answer(alloc, words),
            "make" => archives::make_answer(alloc, heap, words),
            call => bail!("no call {call:?}"),
        }
    }
}

/// Returns the answer for a call, as a line.
fn answer_line(alloc: Global, line: &str) -> Result<String> {
    let words: Vec<&str> = line.split(' ').collect(alloc)?;
    let (growths, call) = growths_and_call(words.as_slice());
    answer_each(alloc, &RunAnswers, call, growths)
}

fn main(rt: HostRuntime) -> Result<()> {
    let mut is_name = true;
    for line in rt.reader().lines(rt.alloc()) {
        let line = line?;
        if is_name {
            println!(rt; "{line}")?;
        } else {
            let answer = answer_line(rt.alloc(), line.as_str())?;
            println!(rt; "{answer}")?;
        }
        is_name = !is_name;
    }
    Ok(())
}
