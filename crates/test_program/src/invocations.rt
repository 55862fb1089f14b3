//! Tests of command lines: the invocations that they mean, and the lines that are refused.

use capn_tool::{
    Command, Explain, ExplainRefused, Explanation, Flow, Form, Invocation, Limits, Make,
    MessageText, Style, Tariff, invocation_of, program_command,
};
use std::alloc::Global;
use std::process::Abort;

/// Tests whether `words` mean the command `want` over messages.
fn is_command(alloc: Global, words: &[&str], want: Command) -> bool {
    let told = invocation_of(alloc, words);
    match &told {
        Ok(Invocation::Message(command)) => *command == want,
        _ => false,
    }
}

/// Tests whether `words` mean a `show` of a packed stream in `style`, at `path` if there is one.
fn is_shown(alloc: Global, words: &[&str], style: Style, path: Option<&str>) -> bool {
    let told = invocation_of(alloc, words);
    match &told {
        Ok(Invocation::Show(show)) => show.form == Form::Packed
            && show.limits == Limits::usual()
            && show.style == style
            && !show.offsets
            && !show.ways
            && show.path == path,
        _ => false,
    }
}

/// Tests whether `words` mean a `show` of a whole packed stream in `style`, with the marks `offsets` and `ways`.
fn is_marked(alloc: Global, words: &[&str], style: Style, offsets: bool, ways: bool) -> bool {
    let told = invocation_of(alloc, words);
    match &told {
        Ok(Invocation::Show(show)) => show.form == Form::Packed
            && show.limits == Limits::usual()
            && show.style == style
            && show.offsets == offsets
            && show.ways == ways
            && show.path.is_none(),
        _ => false,
    }
}

/// Tests whether `words` mean the run `want`, which explains one message.
fn is_explained(alloc: Global, words: &[&str], want: Explain) -> bool {
    let told = invocation_of(alloc, words);
    match &told {
        Ok(Invocation::Explain(Explanation::One(explain))) => *explain == want,
        _ => false,
    }
}

/// Tests whether `words` mean the run `want`, which explains every refused message.
fn is_each_explained(alloc: Global, words: &[&str], want: ExplainRefused) -> bool {
    let told = invocation_of(alloc, words);
    match &told {
        Ok(Invocation::Explain(Explanation::Refused(refused))) => *refused == want,
        _ => false,
    }
}

/// Tests whether `words` mean `want`, which is `pack --streaming` or `unpack --streaming`.
fn is_flow(alloc: Global, words: &[&str], want: Flow) -> bool {
    let told = invocation_of(alloc, words);
    match &told {
        Ok(Invocation::Flow(flow)) => *flow == want,
        _ => false,
    }
}

/// Tests whether `words` mean a `make` in `form`, which allows texts between quotes if `quoted` is set.
fn is_made(alloc: Global, words: &[&str], form: Form, quoted: bool) -> bool {
    let told = invocation_of(alloc, words);
    match &told {
        Ok(Invocation::Make(make)) => *make == Make { form, quoted },
        _ => false,
    }
}

/// Checks that `words` mean no invocation, and that the exit status is `status`.
pub(crate) fn expect_usage(rt: &impl Abort, alloc: Global, words: &[&str], status: u8) {
    match invocation_of(alloc, words) {
        Ok(_) => assert!(rt; false, "{words:?}"),
        Err(usage) => assert!(rt; usage.status() == status, "{words:?}"),
    }
}

#[test]
fn commands_over_messages_are_as_they_were(rt: HostRuntime) {
    let (stream, usual) = (Form::Stream, Limits::usual());
    for (name, want) in [
        ("show", Command::Show(stream, usual)),
        ("check", Command::Check(stream, usual)),
        ("canonical", Command::Canonical(stream, usual)),
        ("hash", Command::Hash(stream, usual)),
        ("pack", Command::Pack),
        ("unpack", Command::Unpack(8_390_657)),
    ] {
        assert!(rt; is_command(rt.alloc(), &["capn", name], want), "{name}");
    }
}

#[test]
fn their_options_are_as_they_were(rt: HostRuntime) {
    let limits = Limits::new(1, 2, 3).unwrap_or(Limits::usual());
    let plain = limits.with_tariff(Tariff::Plain);
    for (name, form, want) in [
        ("show", "stream", Command::Show(Form::Stream, plain)),
        ("check", "packed", Command::Check(Form::Packed, plain)),
        ("canonical", "bare", Command::Canonical(Form::Bare, plain)),
        ("hash", "bare", Command::Hash(Form::Bare, plain)),
    ] {
        let words = [
            "capn",
            name,
            "--form",
            form,
            "--message-words",
            "1",
            "--budget",
            "2",
            "--depth",
            "3",
            "--tariff",
            "plain",
        ];
        assert!(rt; is_command(rt.alloc(), &words, want), "{words:?}");
    }
    let words = ["capn", "unpack", "--message-words=1"];
    assert!(rt;
        is_command(rt.alloc(), &words, Command::Unpack(2_050)),
        "{words:?}"
    );
}

#[test]
fn exactly_one_message_is_taken(rt: HostRuntime) {
    for (name, piece) in [
        ("show", MessageText::Text),
        ("check", MessageText::Price),
        ("hash", MessageText::Digest),
    ] {
        let want = Command::One(piece, Form::Packed, Limits::usual());
        let words = ["capn", name, "--one", "--form=packed"];
        assert!(rt; is_command(rt.alloc(), &words, want), "{words:?}");
    }
    for option in ["--at=0", "--json", "--text", "--offsets", "--ways"] {
        let words = ["capn", "show", option, "--one"];
        let told = invocation_of(rt.alloc(), &words);
        let one = match &told {
            Ok(Invocation::Show(show)) => show.one,
            _ => false,
        };
        assert!(rt; one, "{option}");
    }
    let tool = program_command(rt.alloc()).expect(&rt, "memory");
    for command in tool.get_subcommands() {
        match command.get_name() {
            "show" | "check" | "hash" => {}
            name => expect_usage(&rt, rt.alloc(), &["capn", name, "--one"], 2),
        }
    }
}

#[test]
fn parts_are_shown_at_a_path(rt: HostRuntime) {
    for path in ["0", "0.3.1", "007", "18446744073709551615"] {
        let words = ["capn", "show", "--form", "packed", "--at", path];
        assert!(rt;
            is_shown(rt.alloc(), &words, Style::Lines, Some(path)),
            "{words:?}"
        );
    }
    for path in [
        "",
        ".",
        "0.",
        ".0",
        "0..1",
        "+1",
        "0,1",
        "18446744073709551616",
    ] {
        expect_usage(&rt, rt.alloc(), &["capn", "show", "--at", path], 2);
        expect_usage(
            &rt,
            rt.alloc(),
            &["capn", "show", "--json", "--at", path],
            2,
        );
    }
}

#[test]
fn messages_are_shown_with_marks(rt: HostRuntime) {
    for (option, style) in [("--text", Style::Quoted), ("--form=packed", Style::Lines)] {
        let rest = if style == Style::Lines {
            "--depth=64"
        } else {
            "--form=packed"
        };
        let words = ["capn", "show", option, rest, "--offsets"];
        assert!(rt;
            is_marked(rt.alloc(), &words, style, true, false),
            "{words:?}"
        );
        let words = ["capn", "show", "--ways", option, rest];
        assert!(rt;
            is_marked(rt.alloc(), &words, style, false, true),
            "{words:?}"
        );
        let words = ["capn", "show", "--ways", option, "--offsets", rest];
        assert!(rt;
            is_marked(rt.alloc(), &words, style, true, true),
            "{words:?}"
        );
    }
    for words in [
        &["capn", "show", "--json", "--offsets"][..],
        &["capn", "show", "--ways", "--json"][..],
        &["capn", "show", "--ways", "--json", "--text", "--at=0"][..],
        &["capn", "show", "--offsets", "--offsets"][..],
        &["capn", "show", "--ways=1"][..],
        &["capn", "check", "--offsets"][..],
        &["capn", "list", "--ways"][..],
    ] {
        expect_usage(&rt, rt.alloc(), words, 2);
    }
}

#[test]
fn messages_are_shown_in_a_style(rt: HostRuntime) {
    for (option, style) in [("--text", Style::Quoted), ("--json", Style::Json)] {
        let words = ["capn", "show", "--form=packed", option];
        assert!(rt; is_shown(rt.alloc(), &words, style, None), "{words:?}");
        let words = ["capn", "show", option, "--at=0.1", "--form=packed"];
        assert!(rt;
            is_shown(rt.alloc(), &words, style, Some("0.1")),
            "{words:?}"
        );
    }
    for words in [
        ["capn", "show", "--text", "--form=packed", "--json"],
        ["capn", "show", "--json", "--form=packed", "--text"],
    ] {
        assert!(rt;
            is_shown(rt.alloc(), &words, Style::JsonText, None),
            "{words:?}"
        );
    }
    for words in [
        &["capn", "show", "--text", "--text"][..],
        &["capn", "show", "--json=1"][..],
        &["capn", "check", "--json"][..],
        &["capn", "list", "--text"][..],
        &["capn", "list", "--number=1"][..],
        &["capn", "explain", "--keep-going", "--number=2"][..],
        &["capn", "explain", "--number=1", "--number=2"][..],
        &["capn", "explain", "--form=flat"][..],
    ] {
        expect_usage(&rt, rt.alloc(), words, 2);
    }
}

/// Without `--number`, `explain` explains the first refused message.
#[test]
fn a_message_is_explained(rt: HostRuntime) {
    let limits = Limits::new(1, 2, 3).unwrap_or(Limits::usual());
    let words = ["capn", "explain"];
    let want = Explain {
        form: Form::Stream,
        limits: Limits::usual(),
        number: None,
    };
    assert!(rt; is_explained(rt.alloc(), &words, want), "{words:?}");
    let words = [
        "capn",
        "explain",
        "--number=7",
        "--form=bare",
        "--message-words=1",
        "--budget=2",
        "--depth=3",
        "--tariff=plain",
    ];
    let want = Explain {
        form: Form::Bare,
        limits: limits.with_tariff(Tariff::Plain),
        number: Some(7),
    };
    assert!(rt; is_explained(rt.alloc(), &words, want), "{words:?}");
}

/// With `--keep-going`, `explain` explains every refused message.
#[test]
fn every_refused_message_is_explained(rt: HostRuntime) {
    let want = ExplainRefused {
        form: Form::Packed,
        limits: Limits::usual().with_tariff(Tariff::Plain),
    };
    let words = [
        "capn",
        "explain",
        "--keep-going",
        "--form=packed",
        "--tariff=plain",
    ];
    assert!(rt; is_each_explained(rt.alloc(), &words, want), "{words:?}");
    let words = ["capn", "explain", "--number=1", "--keep-going"];
    expect_usage(&rt, rt.alloc(), &words, 2);
}

/// `--number` takes digits without a sign and without leading zeros.
#[test]
fn a_message_is_explained_by_its_number(rt: HostRuntime) {
    for (text, number) in [
        ("1", 1),
        ("10", 10),
        ("1002", 1002),
        ("18446744073709551615", u64::MAX),
    ] {
        let words = ["capn", "explain", "--number", text];
        let want = Explain {
            form: Form::Stream,
            limits: Limits::usual(),
            number: Some(number),
        };
        assert!(rt; is_explained(rt.alloc(), &words, want), "{words:?}");
    }
    for text in [
        "",
        "0",
        "01",
        "+1",
        "-1",
        " 1",
        "1,2",
        "1-2",
        "0x1",
        "18446744073709551616",
        "100000000000000000000",
    ] {
        expect_usage(&rt, rt.alloc(), &["capn", "explain", "--number", text], 2);
    }
}

/// Tests whether `words` are refused with a text that starts with `line`.
fn is_mistaken(alloc: Global, words: &[&str], line: &str) -> bool {
    match invocation_of(alloc, words) {
        Ok(_) => false,
        Err(usage) => match usage.text(alloc) {
            Ok(text) => text.as_str().starts_with(line),
            Err(_) => false,
        },
    }
}

#[test]
fn flags_that_go_together_are_named(rt: HostRuntime) {
    let number = "error: --number takes 1 to 2^64 - 1, without a sign or leading zeros\n";
    for (words, line) in [
        (
            &["capn", "canonical", "--keep-going"][..],
            "error: --keep-going needs --framed\n",
        ),
        (
            &["capn", "explain", "--keep-going", "--number=3"][..],
            "error: --keep-going goes without --number\n",
        ),
        (
            &["capn", "explain", "--keep-going", "--number=0"][..],
            number,
        ),
    ] {
        assert!(rt; is_mistaken(rt.alloc(), words, line), "{words:?}");
    }
}

#[test]
fn bytes_flow_without_a_most(rt: HostRuntime) {
    let words = ["capn", "pack", "--streaming"];
    assert!(rt; is_flow(rt.alloc(), &words, Flow::Pack), "{words:?}");
    let words = ["capn", "unpack", "--streaming"];
    assert!(rt; is_flow(rt.alloc(), &words, Flow::Unpack), "{words:?}");
    let words = [
        "capn",
        "unpack",
        "--streaming",
        "--message-words",
        "8388608",
    ];
    expect_usage(&rt, rt.alloc(), &words, 2);
}

#[test]
fn make_takes_the_form_of_what_it_writes(rt: HostRuntime) {
    assert!(rt;
        is_made(rt.alloc(), &["capn", "make"], Form::Stream, false),
        "make"
    );
    for (name, form) in [
        ("stream", Form::Stream),
        ("packed", Form::Packed),
        ("bare", Form::Bare),
    ] {
        let words = ["capn", "make", "--form", name];
        assert!(rt; is_made(rt.alloc(), &words, form, false), "{words:?}");
        let words = ["capn", "make", "--text", "--form", name];
        assert!(rt; is_made(rt.alloc(), &words, form, true), "{words:?}");
    }
    expect_usage(&rt, rt.alloc(), &["capn", "make", "--text", "--text"], 2);
    expect_usage(&rt, rt.alloc(), &["capn", "make", "--form", "text"], 2);
    expect_usage(&rt, rt.alloc(), &["capn", "make", "--budget", "3"], 2);
}
