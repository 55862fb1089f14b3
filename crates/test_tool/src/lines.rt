//! Tests of command lines, and the commands that they mean.

use capn_canon::Form;
use capn_tool::*;
use capn_value::Tariff;
use capn_walk::Limits;
use std::alloc::Global;
use std::process::Abort;

/// Checks that `words` mean the command `want`.
fn expect(rt: &impl Abort, alloc: Global, words: &[&str], want: Command) {
    let told = command_of(alloc, words).ok();
    assert!(rt; told == Some(want), "{words:?}");
}

#[test]
fn usual_values(rt: HostRuntime) {
    let (stream, usual) = (Form::Stream, Limits::usual());
    for (name, want) in [
        ("show", Command::Show(stream, usual)),
        ("check", Command::Check(stream, usual)),
        ("canonical", Command::Canonical(stream, usual)),
        ("hash", Command::Hash(stream, usual)),
        ("pack", Command::Pack),
        ("unpack", Command::Unpack(8_390_657)),
    ] {
        expect(&rt, rt.alloc(), &["capn", name], want);
    }
}

#[test]
fn forms(rt: HostRuntime) {
    let usual = Limits::usual();
    for (form, value) in [
        ("stream", Form::Stream),
        ("packed", Form::Packed),
        ("bare", Form::Bare),
    ] {
        for (name, want) in [
            ("show", Command::Show(value, usual)),
            ("check", Command::Check(value, usual)),
            ("canonical", Command::Canonical(value, usual)),
            ("hash", Command::Hash(value, usual)),
        ] {
            expect(&rt, rt.alloc(), &["capn", name, "--form", form], want);
        }
    }
}

#[test]
fn an_empty_word_is_no_form(rt: HostRuntime) {
    match command_of(rt.alloc(), &["capn", "canonical", "--form", ""]) {
        Ok(_) => assert!(rt; false, "a command"),
        Err(usage) => assert!(rt; usage.status() == 2 && !usage.is_memory()),
    }
}

/// Returns the command to `check` a stream with the given limits.
fn check(message_words: u32, budget: u32, depth: u32) -> Command {
    let limits = Limits::new(message_words, budget, depth).unwrap_or(Limits::usual());
    Command::Check(Form::Stream, limits)
}

#[test]
fn limits_up_to_the_ends_of_their_ranges(rt: HostRuntime) {
    let (usual, most) = (8_388_608, 268_435_456);
    for (option, number, want) in [
        ("--message-words", "1", check(1, usual, 64)),
        ("--message-words", "1000", check(1_000, usual, 64)),
        ("--message-words", "268435456", check(most, usual, 64)),
        ("--budget", "0", check(usual, 0, 64)),
        ("--budget", "1000", check(usual, 1_000, 64)),
        ("--budget", "268435456", check(usual, most, 64)),
        ("--depth", "1", check(usual, usual, 1)),
        ("--depth", "100", check(usual, usual, 100)),
        ("--depth", "256", check(usual, usual, 256)),
    ] {
        expect(&rt, rt.alloc(), &["capn", "check", option, number], want);
    }
}

#[test]
fn unpacked_words_are_a_message_and_the_longest_table(rt: HostRuntime) {
    for (number, words) in [("1", 2_050), ("268435456", 268_437_505)] {
        let line = ["capn", "unpack", "--message-words", number];
        expect(&rt, rt.alloc(), &line, Command::Unpack(words));
    }
}

#[test]
fn tariffs(rt: HostRuntime) {
    let (stream, usual) = (Form::Stream, Limits::usual());
    let plain = usual.with_tariff(Tariff::Plain);
    for (name, tariff, want) in [
        ("show", "strict", Command::Show(stream, usual)),
        ("show", "plain", Command::Show(stream, plain)),
        ("check", "plain", Command::Check(stream, plain)),
        ("canonical", "plain", Command::Canonical(stream, plain)),
        ("hash", "plain", Command::Hash(stream, plain)),
    ] {
        expect(&rt, rt.alloc(), &["capn", name, "--tariff", tariff], want);
    }
}

#[test]
fn help_says_what_the_program_does_below_the_version(rt: HostRuntime) {
    let text = match command_of(rt.alloc(), &["capn", "--help"]) {
        Ok(_) => None,
        Err(usage) => usage.text(rt.alloc()).ok(),
    };
    let text = text.expect(&rt, "help");
    let (title, below) = text.as_str().split_once('\n').expect(&rt, "lines");
    assert!(rt; title.starts_with("capn 1.1.0-dev: "));
    assert!(rt; below.starts_with("\nTo see what a message contains, "));
    assert!(rt; below.contains("\n\nShows, checks, "));
}
