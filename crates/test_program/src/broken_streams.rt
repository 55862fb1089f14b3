//! Tests of the output of runs whose reader or writer fails.

use crate::broken::{Ending, Input, ended};
use capn_tool::program_command;
use std::alloc::Global;
use std::process::Abort;

/// Frames of four messages: one with a word and a text, a refused one, one with a null root, and the first one again.
const ARCHIVE: [u8; 112] = [
    0, 0, 0, 0, 4, 0, 0, 0, 0, 0, 0, 0, 1, 0, 1, 0, 7, 0, 0, 0, 0, 0, 0, 0, 1, 0, 0, 0, 26, 0, 0,
    0, 104, 105, 0, 0, 0, 0, 0, 0, 0, 0, 0, 0, 1, 0, 0, 0, 0, 0, 0, 0, 9, 0, 0, 0, 0, 0, 0, 0, 1,
    0, 0, 0, 0, 0, 0, 0, 0, 0, 0, 0, 0, 0, 0, 0, 4, 0, 0, 0, 0, 0, 0, 0, 1, 0, 1, 0, 7, 0, 0, 0, 0,
    0, 0, 0, 1, 0, 0, 0, 26, 0, 0, 0, 104, 105, 0, 0, 0, 0, 0, 0,
];

/// Runs over an archive that write a line or a frame for each message as soon as it is read.
const OVER_ARCHIVES: [&[&str]; 4] = [
    &["capn", "list"],
    &["capn", "list", "--keep-going"],
    &["capn", "list", "--digest", "--keep-going"],
    &["capn", "canonical", "--framed", "--keep-going"],
];

/// Runs that can leave messages out.
const WITH_FEWER: [&[&str]; 5] = [
    &["capn", "uniq", "--keep-going"],
    &["capn", "filter"],
    &["capn", "filter", "--canonical", "--keep-going"],
    &["capn", "pick", "--from=2", "--to=3"],
    &["capn", "pick"],
];

/// Runs that show messages, or parts of them, or say what their words are.
const SHOWING: [&[&str]; 5] = [
    &["capn", "show", "--at=0"],
    &["capn", "show", "--text"],
    &["capn", "show", "--json"],
    &["capn", "annotate"],
    &["capn", "annotate", "--summary"],
];

/// Runs over the messages or the words of a packed stream.
const OVER_PACKED: [&[&str]; 6] = [
    &["capn", "list", "--form=packed", "--keep-going"],
    &["capn", "filter", "--form=packed", "--keep-going"],
    &["capn", "pick", "--form=packed", "--from=2"],
    &["capn", "show", "--form=packed", "--at=0"],
    &["capn", "annotate", "--form=packed"],
    &["capn", "unpack", "--streaming"],
];

/// Runs that write only at the end of their input.
const AT_THE_END: [&[&str]; 2] = [
    &["capn", "limits", "--keep-going"],
    &["capn", "uniq", "--count", "--keep-going"],
];

/// The command line that packs while it reads.
const PACK: [&str; 3] = ["capn", "pack", "--streaming"];

/// Returns the outcome of a run whose reader fails after `bytes`, which are read in chunks of at most `most`.
fn unread(alloc: Global, words: &[&str], bytes: &[u8], most: usize) -> Ending {
    let input = Input {
        bytes,
        most,
        fails: true,
        room: usize::MAX,
    };
    ended(alloc, words, input)
}

/// Returns the outcome of a run whose writer takes `room` bytes.
fn unwritten(alloc: Global, words: &[&str], bytes: &[u8], room: usize) -> Ending {
    let input = Input {
        bytes,
        most: usize::MAX,
        fails: false,
        room,
    };
    ended(alloc, words, input)
}

/// Returns the size of a chunk for an input of `count` bytes: 1 if `count` is even, and otherwise no limit.
fn piece_of(count: usize) -> usize {
    if count % 2 == 0 { 1 } else { usize::MAX }
}

/// Tests `cut`, the outcome with a reader that fails after some bytes, against `whole`, the outcome if the input ends
/// after these bytes. A run that met the failure must report it. In any other case `cut` must equal `whole`.
fn ends_by_its_reader(cut: &Ending, whole: &Ending) -> bool {
    if cut.read_failed {
        cut.is_broken()
    } else {
        cut.is_as(whole)
    }
}

/// Lets the reader fail after each number of bytes. The run must write exactly what it writes if the input ends after
/// these bytes. If the reader returned an error, the run must say so.
fn expect_all_that_came(rt: &impl Abort, alloc: Global, words: &[&str], bytes: &[u8]) {
    for count in 0..=bytes.len() {
        let (came, most) = (&bytes[..count], piece_of(count));
        let whole = ended(alloc, words, Input::whole(came, most));
        let cut = unread(alloc, words, came, most);
        let is_same = cut.text.as_slice() == whole.text.as_slice();
        assert!(rt;
            is_same && ends_by_its_reader(&cut, &whole),
            "{words:?} {count}"
        );
    }
}

#[test]
fn the_reader_of_an_archive_fails_after_each_byte(rt: HostRuntime) {
    for words in OVER_ARCHIVES {
        expect_all_that_came(&rt, rt.alloc(), words, &ARCHIVE);
    }
}

#[test]
fn the_reader_of_fewer_messages_fails_after_each_byte(rt: HostRuntime) {
    for words in WITH_FEWER {
        expect_all_that_came(&rt, rt.alloc(), words, &ARCHIVE);
    }
}

#[test]
fn the_reader_of_what_is_shown_fails_after_each_byte(rt: HostRuntime) {
    for words in SHOWING {
        expect_all_that_came(&rt, rt.alloc(), words, &ARCHIVE);
    }
}

/// The command line of a comparison. The tests compare a message with a null root and a message that differs.
const CMP: [&str; 2] = ["capn", "cmp"];

#[test]
fn the_reader_of_a_comparison_fails_after_each_byte(rt: HostRuntime) {
    expect_all_that_came(&rt, rt.alloc(), &CMP, &ARCHIVE[56..]);
}

#[test]
fn the_writer_of_a_difference_fails_after_each_byte(rt: HostRuntime) {
    expect_what_has_room(&rt, rt.alloc(), &CMP, &ARCHIVE[56..]);
}

/// Returns the outcome of packing the archive.
fn packed(alloc: Global) -> Ending {
    let input = Input::whole(&ARCHIVE, usize::MAX);
    ended(alloc, &["capn", "pack"], input)
}

#[test]
fn the_reader_of_a_packed_stream_fails_after_each_byte(rt: HostRuntime) {
    let packed = packed(rt.alloc());
    for words in OVER_PACKED {
        expect_all_that_came(&rt, rt.alloc(), words, packed.text.as_slice());
    }
}

/// A run that writes only at the end of its input writes nothing if the reader fails first.
#[test]
fn a_reader_fails_before_the_end(rt: HostRuntime) {
    for words in AT_THE_END {
        for count in 0..=ARCHIVE.len() {
            let (came, most) = (&ARCHIVE[..count], piece_of(count));
            let whole = ended(rt.alloc(), words, Input::whole(came, most));
            let cut = unread(rt.alloc(), words, came, most);
            assert!(rt;
                cut.text.is_empty() && ends_by_its_reader(&cut, &whole),
                "{words:?} {count}"
            );
        }
    }
}

/// Tests whether more input can change the packed bytes of the last word. It can if the word is zero, or has at most
/// one zero byte.
fn may_go_on(bytes: &[u8]) -> bool {
    let whole = bytes.len() / 8 * 8;
    if whole == 0 {
        return false;
    }
    let mut zeros = 0u32;
    for byte in &bytes[whole - 8..whole] {
        if *byte == 0 {
            zeros = zeros.saturating_add(1);
        }
    }
    zeros < 2 || zeros == 8
}

/// The packed bytes of what was read are written, except the last group if more input can change it.
#[test]
fn the_reader_of_words_fails_after_each_byte(rt: HostRuntime) {
    for count in 0..=ARCHIVE.len() {
        let (came, most) = (&ARCHIVE[..count], piece_of(count));
        let whole = ended(rt.alloc(), &PACK, Input::whole(came, most));
        let cut = unread(rt.alloc(), &PACK, came, most);
        let is_right = if may_go_on(came) {
            whole.text.starts_with(cut.text.as_slice())
        } else {
            whole.text.as_slice() == cut.text.as_slice()
        };
        assert!(rt; is_right && cut.is_broken(), "{count}");
    }
}

/// Lets the writer fail after each number of bytes. Exactly that many bytes of the text must be written, and the run
/// must say that its output failed.
fn expect_what_has_room(rt: &impl Abort, alloc: Global, words: &[&str], bytes: &[u8]) {
    let whole = ended(alloc, words, Input::whole(bytes, usize::MAX));
    assert!(rt; !whole.text.is_empty(), "{words:?}");
    for room in 0..whole.text.len() {
        let cut = unwritten(alloc, words, bytes, room);
        assert!(rt;
            cut.is_broken() && cut.text.as_slice() == &whole.text[..room],
            "{words:?} {room}"
        );
    }
}

#[test]
fn the_writer_of_lines_fails_after_each_byte(rt: HostRuntime) {
    for words in [
        &["capn", "list", "--keep-going"][..],
        &["capn", "limits", "--keep-going"],
        &["capn", "uniq", "--count", "--keep-going"],
    ] {
        expect_what_has_room(&rt, rt.alloc(), words, &ARCHIVE);
    }
}

#[test]
fn the_writer_of_digests_fails_after_each_byte(rt: HostRuntime) {
    let words = ["capn", "list", "--digest", "--keep-going"];
    expect_what_has_room(&rt, rt.alloc(), &words, &ARCHIVE);
}

#[test]
fn the_writer_of_messages_fails_after_each_byte(rt: HostRuntime) {
    for words in [
        &["capn", "canonical", "--framed", "--keep-going"][..],
        &["capn", "uniq", "--keep-going"],
        &["capn", "filter", "--keep-going"],
        &["capn", "pick"],
        &PACK,
    ] {
        expect_what_has_room(&rt, rt.alloc(), words, &ARCHIVE);
    }
}

#[test]
fn the_writer_of_what_is_shown_fails_after_each_byte(rt: HostRuntime) {
    for words in SHOWING {
        expect_what_has_room(&rt, rt.alloc(), words, &ARCHIVE);
    }
}

#[test]
fn the_writer_of_words_fails_after_each_byte(rt: HostRuntime) {
    let packed = packed(rt.alloc());
    let words = ["capn", "unpack", "--streaming"];
    expect_what_has_room(&rt, rt.alloc(), &words, packed.text.as_slice());
}

/// The distance between the places where a reader or a writer fails. It is nine bytes, so that every position in a word
/// occurs.
const STEP: usize = 9;

/// Returns the outcome of a command over the last message of the archive.
fn written(alloc: Global, name: &str) -> Ending {
    let input = Input::whole(&ARCHIVE[72..], usize::MAX);
    ended(alloc, &["capn", name], input)
}

/// Lets the reader fail after every ninth byte. The run must write a prefix of what it writes if the input ends there.
/// If the reader returned an error, the run must say so.
fn expect_no_more_than_came(rt: &impl Abort, alloc: Global, words: &[&str], bytes: &[u8]) {
    for count in 0..=bytes.len() {
        if count % STEP == 0 {
            let (came, most) = (&bytes[..count], piece_of(count));
            let whole = ended(alloc, words, Input::whole(came, most));
            let cut = unread(alloc, words, came, most);
            let begins = whole.text.starts_with(cut.text.as_slice());
            assert!(rt;
                begins && ends_by_its_reader(&cut, &whole),
                "{words:?} {count}"
            );
        }
    }
}

/// Lets the writer fail after every ninth byte. Exactly the bytes up to there must be written, and the run must say
/// that its output failed. Returns `true` if the run writes anything.
fn writes_what_has_room(rt: &impl Abort, alloc: Global, words: &[&str], bytes: &[u8]) -> bool {
    let whole = ended(alloc, words, Input::whole(bytes, usize::MAX));
    for room in 0..whole.text.len() {
        if room % STEP == 0 {
            let cut = unwritten(alloc, words, bytes, room);
            assert!(rt;
                cut.is_broken() && cut.text.as_slice() == &whole.text[..room],
                "{words:?} {room}"
            );
        }
    }
    !whole.text.is_empty()
}

/// A run of each command reports a failure of its reader, if it meets one. The inputs are two messages, the second of
/// them, the packed bytes of the second, and its text.
#[test]
fn the_reader_of_each_command_fails(rt: HostRuntime) {
    let tool = program_command(rt.alloc()).expect(&rt, "memory");
    let packed = written(rt.alloc(), "pack");
    let shown = written(rt.alloc(), "show");
    for command in tool.get_subcommands() {
        let words = ["capn", command.get_name()];
        for bytes in [
            &ARCHIVE[56..],
            &ARCHIVE[72..],
            packed.text.as_slice(),
            shown.text.as_slice(),
        ] {
            expect_no_more_than_came(&rt, rt.alloc(), &words, bytes);
        }
    }
}

/// A run of each command reports that its writer fails. Each command writes something for at least one of the inputs.
#[test]
fn the_writer_of_each_command_fails(rt: HostRuntime) {
    let tool = program_command(rt.alloc()).expect(&rt, "memory");
    let packed = written(rt.alloc(), "pack");
    let shown = written(rt.alloc(), "show");
    for command in tool.get_subcommands() {
        let words = ["capn", command.get_name()];
        let mut writes = false;
        for bytes in [
            &ARCHIVE[56..],
            &ARCHIVE[72..],
            packed.text.as_slice(),
            shown.text.as_slice(),
        ] {
            writes |= writes_what_has_room(&rt, rt.alloc(), &words, bytes);
        }
        assert!(rt; writes, "{words:?}");
    }
}
