//! Tests of command lines that mean no invocation: a request for help or for the version, and a mistake.

use capn_args::{Usage, invocation_of};
use std::alloc::Global;
use std::process::Abort;

/// Returns the outcome of `words`, which mean no invocation.
fn usage(alloc: Global, words: &[&str]) -> Option<Usage> {
    match invocation_of(alloc, words) {
        Ok(_) => None,
        Err(usage) => Some(usage),
    }
}

/// Tests whether `words` ask for help or for the version, or have a mistake if neither flag is set. None of them lacks
/// memory.
fn asks(alloc: Global, words: &[&str], is_help: bool, is_version: bool) -> bool {
    match usage(alloc, words) {
        Some(usage) => usage.is_help() == is_help
            && usage.is_version() == is_version
            && !usage.is_memory(),
        None => false,
    }
}

#[test]
fn requests_and_mistakes(rt: HostRuntime) {
    let alloc = rt.alloc();
    assert!(rt; asks(alloc, &["capn", "--help"], true, false));
    assert!(rt; asks(alloc, &["capn", "check", "--help"], true, false));
    assert!(rt; asks(alloc, &["capn", "--version"], false, true));
    assert!(rt; asks(alloc, &["capn", "no-such-command"], false, false));
    assert!(rt; asks(alloc, &["capn", "check", "--no-such-option"], false, false));
}
