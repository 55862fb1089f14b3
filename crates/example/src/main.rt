//! An example of the libraries. For each message of standard input, it prints the SHA-256 of the canonical bytes. It
//! also says whether the message has the same value as the last one that was not refused.
//!
//! Canonical bytes serve to sign, hash and compare messages. The canonical bytes of two messages are equal if and only
//! if their values are equal up to trailing zero words and trailing null pointers. A program that reads messages from
//! untrusted senders sets limits first. The example reports a refused message in plain words.
#![tactic(auto)]

use anyhow::Result;
use capn_canon::{Fault, Limits, Refusal, canonical_of};
use capn_stream::read_message;
use capn_words::Watched;
use sha2::{Digest, Sha256};

/// Returns the meaning of `refusal`, for a user who does not know the format.
fn in_words(refusal: &Refusal) -> &'static str {
    match refusal {
        Refusal::Bare(_) | Refusal::Packed(_) | Refusal::Frame(_) => "these bytes are no message",
        Refusal::Trailing(_) => "something follows the message",
        Refusal::Walk(stopped) => match stopped.fault {
            Fault::OverBudget => "to read it would cost more than it may",
            Fault::TooDeep => "its objects lie too deep",
            _ => "one of its pointers names nothing",
        },
        Refusal::Capability(_) => "it holds a capability, which only the sender knows",
        Refusal::Memory => "there is no memory for it",
    }
}

fn main(rt: HostRuntime) -> Result<()> {
    let alloc = rt.alloc();
    let limits = Limits::usual();
    let mut reader = Watched::new(rt.stdin());
    let mut before: Option<Vec<u8>> = None;
    for _ in 0..u64::MAX {
        if reader.failed() {
            break;
        }
        let message = match read_message(alloc, &mut reader, limits.message_words()) {
            Ok(Some(message)) => message,
            Ok(None) => break,
            Err(fault) => {
                println!(rt; "no more messages: {fault}")?;
                break;
            }
        };
        match canonical_of(alloc, &message, limits) {
            Ok(canonical) => {
                let digest = hex::encode(alloc, Sha256::digest(&canonical.bytes).as_slice())?;
                let same = match &before {
                    Some(bytes) if *bytes == canonical.bytes => ", the same value as before",
                    _ => "",
                };
                println!(rt; "{digest}, {} words paid{same}", canonical.paid)?;
                before = Some(canonical.bytes);
            }
            Err(refusal) => {
                let words = in_words(&refusal);
                println!(rt; "refused: {words} ({refusal})")?;
            }
        }
    }
    Ok(())
}
