//! The table of the commands and their options.

use crate::help::Page;
use crate::option_row::{Exclusion, FORM, OptionRow, Taken, WORDS};
use crate::{archives_help, bytes_help, messages_help};
use capn_value::{MOST_COST, MOST_HEIGHT};

/// The commands that take `--budget`, `--depth` and `--tariff`.
const LIMITED: &[&str] = &[
    "show",
    "check",
    "explain",
    "annotate",
    "list",
    "limits",
    "canonical",
    "hash",
    "uniq",
    "filter",
    "cmp",
];

/// The commands over messages that take limits and the form `bare`.
const UNFRAMED: &[&str] = &[
    "show",
    "check",
    "explain",
    "annotate",
    "list",
    "limits",
    "canonical",
    "hash",
    "uniq",
    "filter",
];

/// The commands, in the order in which help lists them.
pub const COMMANDS: [&str; 15] = [
    "show",
    "check",
    "explain",
    "annotate",
    "list",
    "limits",
    "canonical",
    "hash",
    "uniq",
    "filter",
    "cmp",
    "pick",
    "pack",
    "unpack",
    "make",
];

/// Returns the page of help for the command `name`.
pub(crate) fn page_of(name: &str) -> Page {
    match name {
        "show" => messages_help::SHOW,
        "check" => messages_help::CHECK,
        "explain" => messages_help::EXPLAIN,
        "annotate" => messages_help::ANNOTATE,
        "list" => archives_help::LIST,
        "limits" => archives_help::LIMITS,
        "canonical" => archives_help::CANONICAL,
        "uniq" => archives_help::UNIQ,
        "filter" => archives_help::FILTER,
        "cmp" => archives_help::CMP,
        "pick" => archives_help::PICK,
        "pack" => bytes_help::PACK,
        "unpack" => bytes_help::UNPACK,
        "make" => bytes_help::MAKE,
        _ => messages_help::HASH,
    }
}

/// The options. The help of a command lists its options in this order.
pub const OPTIONS: [OptionRow; 31] = [
    OptionRow {
        name: "form",
        taken: FORM,
        help: "The form of the input: `stream`, messages with their
segment tables; `packed`, the same, packed; or `bare`,
one message of one segment without a table, such as
canonical bytes",
        commands: &[
            "show", "check", "explain", "annotate", "list", "limits", "hash", "uniq", "filter",
        ],
    },
    OptionRow {
        name: "form",
        taken: FORM,
        help: "The form of the input: `stream`, messages with their
segment tables; `packed`, the same, packed; or `bare`,
one message of one segment without a table, such as
canonical bytes",
        commands: &["canonical"],
    },
    OptionRow {
        name: "form",
        taken: FORM,
        help: "The form of the input: `stream`, messages with their
segment tables; or `packed`, the same,
packed",
        commands: &["cmp", "pick"],
    },
    OptionRow {
        name: "form",
        taken: FORM,
        help: "The form of the output: `stream`, messages with their
segment tables; `packed`, the same, packed; or `bare`,
one message of one segment without a
table",
        commands: &["make"],
    },
    OptionRow {
        name: "message-words",
        taken: WORDS,
        help: "The most words of a message, from 1 to 268435456. It
doesn't limit a bare input, which may have
268435457 words",
        commands: UNFRAMED,
    },
    OptionRow {
        name: "message-words",
        taken: WORDS,
        help: "The most words of a message, from 1 to
268435456",
        commands: &["cmp", "pick"],
    },
    OptionRow {
        name: "message-words",
        taken: WORDS,
        help: "The most words of a message, from 1 to 268435456. The
output may have 2049 more, for the longest segment
table",
        commands: &["unpack"],
    },
    OptionRow {
        name: "budget",
        taken: Taken::Number("8388608", 0, MOST_COST as i64),
        help: "The traversal limit: the most words that reading one
message may cost, from 0 to 268435456",
        commands: LIMITED,
    },
    OptionRow {
        name: "depth",
        taken: Taken::Number("64", 1, MOST_HEIGHT as i64),
        help: "The nesting limit: the most objects one below the
other, from 1 to 256. The root object has depth 1",
        commands: LIMITED,
    },
    OptionRow {
        name: "tariff",
        taken: Taken::Usual("TARIFF", "strict"),
        help: "The counting rule of `--budget`: `strict` counts one
word more for each struct and list; `plain` counts
their words alone, like capnp's traversal limit",
        commands: LIMITED,
    },
    OptionRow {
        name: "at",
        taken: Taken::Asked("P"),
        help: "The path from the root to what is written: numbers
with dots between them, such as `0.3.1`",
        commands: &["show"],
    },
    OptionRow {
        name: "text",
        taken: Taken::Flag,
        help: "Write a list of bytes that is a text in quotes",
        commands: &["show"],
    },
    OptionRow {
        name: "json",
        taken: Taken::Flag,
        help: "Write each message as a line of JSON",
        commands: &["show"],
    },
    OptionRow {
        name: "offsets",
        taken: Taken::Flag,
        help: "Begin each line with the byte at which its part lies,
and a tab",
        commands: &["show"],
    },
    OptionRow {
        name: "ways",
        taken: Taken::Flag,
        help: "Begin each line with the path to its part, and a tab;
with `--offsets` the byte comes first",
        commands: &["show"],
    },
    OptionRow {
        name: "one",
        taken: Taken::Flag,
        help: "Take exactly one message: the whole input is read
first, and rejected if it has none, or more than one.
A bare input is always one",
        commands: &["show", "check", "hash"],
    },
    OptionRow {
        name: "number",
        taken: Taken::Asked("K"),
        help: "The number of the message to explain, from 1; by
default it is the first one that is rejected",
        commands: &["explain"],
    },
    OptionRow {
        name: "summary",
        taken: Taken::Flag,
        help: "Write one line for each message, with its number and
its place, and the counts of its words",
        commands: &["annotate"],
    },
    OptionRow {
        name: "framed",
        taken: Taken::Flag,
        help: "Take every message of the input, and write each as a
message of one segment with its segment table",
        commands: &["canonical"],
    },
    OptionRow {
        name: "keep-going",
        taken: Taken::Flag,
        help: "Skip a message that is rejected, and go on with the
next one",
        commands: &["list", "limits", "uniq", "filter"],
    },
    OptionRow {
        name: "keep-going",
        taken: Taken::Flag,
        help: "With `--framed`: skip a message that is rejected, and
go on with the next one",
        commands: &["canonical"],
    },
    OptionRow {
        name: "keep-going",
        taken: Taken::Flag,
        help: "Explain every message that is rejected, and write an
empty line after each; it goes without `--number`",
        commands: &["explain"],
    },
    OptionRow {
        name: "digest",
        taken: Taken::Flag,
        help: "End each line with `sha256` and what `hash` writes of
the message, or `-` if it has a capability",
        commands: &["list"],
    },
    OptionRow {
        name: "count",
        taken: Taken::Flag,
        help: "Write no message, but a line `U of N` at the end: how
many would be written, and of how many",
        commands: &["uniq"],
    },
    OptionRow {
        name: "canonical",
        taken: Taken::Flag,
        help: "Write only canonical messages: those of one segment
that is the canonical bytes of its value",
        commands: &["filter"],
    },
    OptionRow {
        name: "from",
        taken: Taken::Place("1"),
        help: "The number of the first message, from 1",
        commands: &["pick"],
    },
    OptionRow {
        name: "to",
        taken: Taken::Place("18446744073709551615"),
        help: "The number of the last message; if it is below
`--from`, no message is written",
        commands: &["pick"],
    },
    OptionRow {
        name: "only",
        taken: Taken::Asked("LIST"),
        help: "Numbers of messages, and ranges of them, in ascending
order, such as `3,7,9-12`; it goes without
`--from` and `--to`",
        commands: &["pick"],
    },
    OptionRow {
        name: "text",
        taken: Taken::Flag,
        help: "Also take a list of bytes on one line, as `show
--text` writes it: `bytes 3 \"ab\\0\"`, with its count
or without it",
        commands: &["make"],
    },
    OptionRow {
        name: "streaming",
        taken: Taken::Flag,
        help: "Write while the input comes in, in at most 2 MiB of
memory. The input may have up to 2^64 - 1 bytes. What
was written before an error stays written",
        commands: &["pack"],
    },
    OptionRow {
        name: "streaming",
        taken: Taken::Flag,
        help: "Write while the input comes in, in at most 2 MiB of
memory. The input may have up to 2^64 - 1 bytes, and
unpack to any number of words. What was written before
an error stays written. It goes without
`--message-words`",
        commands: &["unpack"],
    },
];

/// The options that exclude each other. If several rows forbid the given options, the message of the first is reported.
pub const EXCLUSIONS: [Exclusion; 5] = [
    Exclusion {
        command: "show",
        option: "json",
        others: &["offsets"],
        message: "--json goes without --offsets",
    },
    Exclusion {
        command: "show",
        option: "json",
        others: &["ways"],
        message: "--json goes without --ways",
    },
    Exclusion {
        command: "explain",
        option: "keep-going",
        others: &["number"],
        message: "--keep-going goes without --number",
    },
    Exclusion {
        command: "pick",
        option: "only",
        others: &["from", "to"],
        message: "--only goes without --from and --to",
    },
    Exclusion {
        command: "unpack",
        option: "streaming",
        others: &["message-words"],
        message: "--streaming goes without --message-words",
    },
];
