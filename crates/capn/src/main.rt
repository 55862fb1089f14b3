//! The entry point of the program `capn`.
//!
//! `capn_tool::program` states what the program does. This file calls `program` with the words of the command line,
//! standard input, standard output and standard error, and ends with the exit status that `program` returns. The status
//! is 0 if the run has no fault and finds no difference between messages. It is 1 if the input is refused or messages
//! differ, and 2 after a mistake on the command line. It is 3 if memory is refused, if the input or the output fails,
//! or if the input is too long.
#![tactic(auto)]

use capn_tool::{ToolFault, end, program};
use capn_words::Watched;
use std::env;
use std::io::{self, ErrorKind};
use std::process::ExitCode;

/// The exit status of a mistake on the command line.
const MISTAKE: u8 = 2;

/// Returns the words of the command line. The error says that an allocation was refused, or that a word is no UTF-8
/// text. `collect` is not used, because it ignores a refusal of its first request, which is for all words.
fn words_of(rt: &HostRuntime) -> io::Result<Vec<String>> {
    let mut words = Vec::new(rt.alloc());
    for word in env::args(rt)? {
        if words.push(word).is_err() {
            return Err(ErrorKind::OutOfMemory.into());
        }
    }
    Ok(words)
}

fn main(rt: HostRuntime) -> ExitCode {
    let mut errors = Watched::new(rt.stderr());
    let words = match words_of(&rt) {
        Ok(words) => words,
        Err(error) => {
            if error.kind() == ErrorKind::OutOfMemory {
                let code = end(rt.alloc(), &Err(ToolFault::Memory), &mut errors);
                return ExitCode::from(code);
            }
            let text = b"error: a word of the command line is no UTF-8 text\n";
            let _told = errors.write_all(text);
            return ExitCode::from(MISTAKE);
        }
    };
    let mut reader = Watched::new(rt.stdin());
    let mut writer = Watched::new(rt.stdout());
    let code = program(rt.alloc(), &words, &mut reader, &mut writer, &mut errors);
    ExitCode::from(code)
}
