//! Tests of the command lines of `annotate`: the invocations that they mean, and the options that are refused.

use crate::invocations::expect_usage;
use capn_tool::{AnnotateOrder, Form, Invocation, Limits, Tariff, invocation_of};
use std::alloc::Global;

/// Tests whether `words` mean the run `want` of `annotate`.
fn is_annotate(alloc: Global, words: &[&str], want: AnnotateOrder) -> bool {
    let told = invocation_of(alloc, words);
    match &told {
        Ok(Invocation::Annotate(annotate)) => *annotate == want,
        _ => false,
    }
}

/// Each form has a name, and `--summary` is given or not.
#[test]
fn messages_are_annotated(rt: HostRuntime) {
    for (name, form) in [
        ("--form=stream", Form::Stream),
        ("--form=packed", Form::Packed),
        ("--form=bare", Form::Bare),
    ] {
        let limits = Limits::usual();
        let want = AnnotateOrder {
            form,
            limits,
            summary: false,
        };
        assert!(rt;
            is_annotate(rt.alloc(), &["capn", "annotate", name], want),
            "{name}"
        );
        let want = AnnotateOrder {
            form,
            limits,
            summary: true,
        };
        let words = ["capn", "annotate", "--summary", name];
        assert!(rt; is_annotate(rt.alloc(), &words, want), "{name}");
    }
}

#[test]
fn messages_are_annotated_within_limits(rt: HostRuntime) {
    let want = AnnotateOrder {
        form: Form::Stream,
        limits: Limits::new(7, 5, 3)
            .unwrap_or(Limits::usual())
            .with_tariff(Tariff::Plain),
        summary: false,
    };
    let words = [
        "capn",
        "annotate",
        "--message-words=7",
        "--budget=5",
        "--depth=3",
        "--tariff=plain",
    ];
    assert!(rt; is_annotate(rt.alloc(), &words, want));
}

/// `annotate` takes no file, no option of another command, and no flag twice.
#[test]
fn nothing_else_is_taken(rt: HostRuntime) {
    for word in [
        "message",
        "-",
        "--one",
        "--number=1",
        "--keep-going",
        "--text",
        "--json",
        "--offsets",
        "--ways",
        "--at=0",
        "--canonical",
        "--count",
        "--digest",
        "--framed",
        "--from=1",
        "--to=1",
        "--only=1",
        "--streaming",
        "--summary=true",
        "--form=flat",
        "--tariff=cheap",
        "--depth=0",
        "--budget=268435457",
        "--message-words=0",
    ] {
        expect_usage(&rt, rt.alloc(), &["capn", "annotate", word], 2);
    }
    let words = ["capn", "annotate", "--summary", "--summary"];
    expect_usage(&rt, rt.alloc(), &words, 2);
}

/// No other command takes `--summary`.
#[test]
fn no_other_command_has_a_summary(rt: HostRuntime) {
    for name in [
        "show",
        "check",
        "explain",
        "list",
        "limits",
        "canonical",
        "hash",
        "uniq",
        "filter",
        "cmp",
        "pick",
        "pack",
        "unpack",
        "make",
    ] {
        expect_usage(&rt, rt.alloc(), &["capn", name, "--summary"], 2);
    }
}
