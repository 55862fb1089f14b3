//! Tests of command lines over archives: the invocations that they mean, and the options that each command takes.

use crate::invocations::expect_usage;
use capn_tool::{
    ArchiveOrder, CmpOrder, FilterOrder, Form, Invocation, Limits, Only, Pick, StreamForm, Tariff,
    Task, UniqOrder, invocation_of, program_command,
};
use std::alloc::Global;
use std::process::Abort;

/// Tests whether `words` mean the run `want` over an archive.
fn is_archive(alloc: Global, words: &[&str], want: ArchiveOrder) -> bool {
    let told = invocation_of(alloc, words);
    match &told {
        Ok(Invocation::Archive(archive)) => *archive == want,
        _ => false,
    }
}

/// Tests whether `words` mean the run `want` of `uniq`.
fn is_uniq(alloc: Global, words: &[&str], want: UniqOrder) -> bool {
    let told = invocation_of(alloc, words);
    match &told {
        Ok(Invocation::Uniq(uniq)) => *uniq == want,
        _ => false,
    }
}

/// Tests whether `words` mean the run `want` of `filter`.
fn is_filter(alloc: Global, words: &[&str], want: FilterOrder) -> bool {
    let told = invocation_of(alloc, words);
    match &told {
        Ok(Invocation::Filter(filter)) => *filter == want,
        _ => false,
    }
}

/// Tests whether `words` mean the run `want` of `cmp`.
fn is_cmp(alloc: Global, words: &[&str], want: CmpOrder) -> bool {
    let told = invocation_of(alloc, words);
    match &told {
        Ok(Invocation::Cmp(cmp)) => *cmp == want,
        _ => false,
    }
}

/// Tests whether `words` mean the run `want` of `pick`.
fn is_pick(alloc: Global, words: &[&str], want: Pick) -> bool {
    let told = invocation_of(alloc, words);
    match &told {
        Ok(Invocation::Pick(pick)) => *pick == want,
        _ => false,
    }
}

/// Tests whether `words` mean the run `want` of `pick --only`.
fn is_only(alloc: Global, words: &[&str], want: &Only) -> bool {
    let told = invocation_of(alloc, words);
    match &told {
        Ok(Invocation::Only(only)) => only.form == want.form
            && only.limits == want.limits
            && only.list == want.list,
        _ => false,
    }
}

/// Returns the order of a run over a stream, with the default limits.
fn over(task: Task, keep_going: bool) -> ArchiveOrder {
    ArchiveOrder {
        task,
        form: Form::Stream,
        limits: Limits::usual(),
        keep_going,
    }
}

#[test]
fn runs_over_archives(rt: HostRuntime) {
    for (name, task) in [("list", Task::List), ("limits", Task::Limits)] {
        assert!(rt;
            is_archive(rt.alloc(), &["capn", name], over(task, false)),
            "{name}"
        );
        assert!(rt;
            is_archive(
                rt.alloc(),
                &["capn", name, "--keep-going"],
                over(task, true)
            ),
            "{name}"
        );
    }
    let words = ["capn", "list", "--digest"];
    assert!(rt;
        is_archive(rt.alloc(), &words, over(Task::Digests, false)),
        "{words:?}"
    );
    for (words, keep_going) in [
        (&["capn", "canonical", "--framed"][..], false),
        (&["capn", "canonical", "--framed", "--keep-going"][..], true),
        (&["capn", "canonical", "--keep-going", "--framed"][..], true),
    ] {
        assert!(rt;
            is_archive(rt.alloc(), words, over(Task::Canonical, keep_going)),
            "{words:?}"
        );
    }
}

#[test]
fn options_of_runs_over_archives(rt: HostRuntime) {
    let limits = Limits::new(1, 2, 3).unwrap_or(Limits::usual());
    for (name, flag, task) in [
        ("list", "--keep-going", Task::List),
        ("limits", "--keep-going", Task::Limits),
        ("canonical", "--framed", Task::Canonical),
    ] {
        for (form, value) in [
            ("stream", Form::Stream),
            ("packed", Form::Packed),
            ("bare", Form::Bare),
        ] {
            let words = [
                "capn",
                name,
                "--form",
                form,
                "--message-words=1",
                "--budget=2",
                flag,
                "--depth=3",
                "--tariff=plain",
            ];
            let want = ArchiveOrder {
                task,
                form: value,
                limits: limits.with_tariff(Tariff::Plain),
                keep_going: flag == "--keep-going",
            };
            assert!(rt; is_archive(rt.alloc(), &words, want), "{words:?}");
        }
    }
}

#[test]
fn doubles_are_left_out_or_counted(rt: HostRuntime) {
    for (flag, keep_going, count) in [("--keep-going", true, false), ("--count", false, true)] {
        let want = UniqOrder {
            form: Form::Bare,
            limits: Limits::usual(),
            keep_going,
            count,
        };
        let words = ["capn", "uniq", "--form=bare", flag];
        assert!(rt; is_uniq(rt.alloc(), &words, want), "{words:?}");
    }
}

#[test]
fn messages_are_let_through(rt: HostRuntime) {
    for (flag, keep_going, canonical) in [
        ("--keep-going", true, false),
        ("--canonical", false, true),
    ] {
        let want = FilterOrder {
            form: Form::Packed,
            limits: Limits::new(7, 5, 3).unwrap_or(Limits::usual()),
            keep_going,
            canonical,
        };
        let words = [
            "capn",
            "filter",
            "--form=packed",
            "--message-words=7",
            "--budget=5",
            "--depth=3",
            flag,
        ];
        assert!(rt; is_filter(rt.alloc(), &words, want), "{words:?}");
    }
}

#[test]
fn messages_are_compared(rt: HostRuntime) {
    let want = CmpOrder {
        form: StreamForm::Stream,
        limits: Limits::usual(),
    };
    assert!(rt; is_cmp(rt.alloc(), &["capn", "cmp"], want));
    let limits = Limits::new(7, 5, 3).unwrap_or(Limits::usual());
    let want = CmpOrder {
        form: StreamForm::Packed,
        limits: limits.with_tariff(Tariff::Plain),
    };
    let words = [
        "capn",
        "cmp",
        "--form=packed",
        "--message-words=7",
        "--budget=5",
        "--depth=3",
        "--tariff=plain",
    ];
    assert!(rt; is_cmp(rt.alloc(), &words, want), "{words:?}");
    for option in [
        "--form=bare",
        "--form=flat",
        "--tariff=cheap",
        "--keep-going",
    ] {
        expect_usage(&rt, rt.alloc(), &["capn", "cmp", option], 2);
    }
}

#[test]
fn messages_are_picked_by_their_numbers(rt: HostRuntime) {
    let want = Pick {
        form: StreamForm::Packed,
        limits: Limits::new(7, 8_388_608, 64).unwrap_or(Limits::usual()),
        from: 2,
        to: u64::MAX,
    };
    let words = [
        "capn",
        "pick",
        "--form=packed",
        "--message-words=7",
        "--from=2",
    ];
    assert!(rt; is_pick(rt.alloc(), &words, want), "{words:?}");
    for option in [
        "--from=0",
        "--to=-1",
        "--to=18446744073709551616",
        "--form=bare",
    ] {
        expect_usage(&rt, rt.alloc(), &["capn", "pick", option], 2);
    }
}

/// `--only` takes numbers and ranges in ascending order.
#[test]
fn messages_are_picked_by_a_list(rt: HostRuntime) {
    for list in [
        "1",
        "3,7,9-12",
        "3-4,5",
        "5-5",
        "1-18446744073709551615",
        "18446744073709551614-18446744073709551615",
    ] {
        let want = Only {
            form: StreamForm::Packed,
            limits: Limits::usual(),
            list,
        };
        let words = ["capn", "pick", "--form=packed", "--only", list];
        assert!(rt; is_only(rt.alloc(), &words, &want), "{words:?}");
    }
    for list in [
        "",
        "0",
        "01",
        "+1",
        "-1",
        "1-",
        "-",
        "1-2-3",
        "1--2",
        "1,",
        ",1",
        "1,,2",
        "1, 2",
        "2,1",
        "1,1",
        "2-1",
        "1-3,3-4",
        "1-3,2",
        "1,02",
        "18446744073709551616",
        "1..2",
        "a",
    ] {
        let words = ["capn", "pick", "--only", list];
        expect_usage(&rt, rt.alloc(), &words, 2);
    }
}

/// `--only` is allowed with limits. It is refused with `--form=bare`, and with each value of `--from` and of `--to`.
#[test]
fn a_list_stands_alone(rt: HostRuntime) {
    for other in [
        "--from=1",
        "--from=3",
        "--to=5",
        "--to=18446744073709551615",
        "--form=bare",
    ] {
        expect_usage(&rt, rt.alloc(), &["capn", "pick", "--only=3", other], 2);
    }
    let want = Only {
        form: StreamForm::Stream,
        limits: Limits::new(7, 8_388_608, 64).unwrap_or(Limits::usual()),
        list: "3",
    };
    let words = ["capn", "pick", "--message-words=7", "--only=3"];
    assert!(rt; is_only(rt.alloc(), &words, &want), "{words:?}");
}

#[test]
fn what_a_command_does_not_take_is_refused(rt: HostRuntime) {
    for words in [
        &["capn", "canonical", "--keep-going"][..],
        &["capn", "list", "--framed"][..],
        &["capn", "list", "--count"][..],
        &["capn", "limits", "--digest"][..],
        &["capn", "uniq", "--digest"][..],
        &["capn", "uniq", "--canonical"][..],
        &["capn", "list", "--canonical"][..],
        &["capn", "filter", "--count"][..],
        &["capn", "filter", "--digest"][..],
        &["capn", "filter", "message"][..],
        &["capn", "filter", "-"][..],
        &["capn", "limits", "--framed"][..],
        &["capn", "show", "--keep-going"][..],
        &["capn", "check", "--framed"][..],
        &["capn", "hash", "--keep-going"][..],
        &["capn", "pack", "--keep-going"][..],
        &["capn", "unpack", "--framed"][..],
        &["capn", "list", "--keep-going", "--keep-going"][..],
        &["capn", "list", "--keep-going=true"][..],
        &["capn", "canonical", "--framed=false"][..],
        &["capn", "list", "--form", "flat"][..],
        &["capn", "limits", "--tariff", "cheap"][..],
        &["capn", "canonical", "--framed", "--form", "flat"][..],
        &["capn", "list", "--depth", "0"][..],
        &["capn", "limits", "--budget", "268435457"][..],
        &["capn", "list", "message"][..],
        &["capn", "--keep-going", "list"][..],
        &["capn", "list", "--version"][..],
        &["capn"][..],
    ] {
        expect_usage(&rt, rt.alloc(), words, 2);
    }
}

#[test]
fn help_names_each_command(rt: HostRuntime) {
    let text = match invocation_of(rt.alloc(), &["capn", "--help"]) {
        Ok(_) => None,
        Err(usage) => usage.text(rt.alloc()).ok(),
    };
    let text = text.expect(&rt, "help");
    let tool = program_command(rt.alloc()).expect(&rt, "memory");
    assert!(rt; tool.has_subcommands());
    for command in tool.get_subcommands() {
        let name = command.get_name();
        let line = format!(in rt.alloc(); "\n  {name} ").expect(&rt, "memory");
        assert!(rt; text.as_str().contains(line.as_str()), "{name}");
    }
}
