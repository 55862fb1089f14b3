//! The pages of help for the commands over single messages.
//! Lines have at most 80 columns.

use crate::help::Page;

/// The page for `show`.
pub const SHOW: Page = Page {
    first: "To see what a message contains, or what is at one place in it:
  capn show < message
  capn show --at 0.3.1 < message
To go on with other tools, or to see the offset and the path of each part:
  capn show --json < messages
  capn show --offsets --ways < message",
    usage: "capn show [OPTIONS] < INPUT",
    about: "Writes the value of each message as text, and then the line `end`",
    more: "The whole message is checked before any of it is written. A message is written
as soon as it is complete. With `--one` the whole input is read first, and
nothing is written unless it is exactly one message.
With `--text` a list of bytes that is a text takes one line, as in
`bytes 3 \"hi\\0\"`. A text is UTF-8 without control characters other than tab,
newline and carriage return, and then a zero; or ASCII from 0x20 to 0x7e with or
without a zero at the end. A quote is written `\\\"`, a backslash `\\\\`, a tab
`\\t`, a newline `\\n`, a carriage return `\\r`, and a zero at the end `\\0`. A
character that nobody sees, or that turns the direction of the line, is written
as its number: `\\u{202e}`.
With `--json` each message is one line of JSON without blanks, and no line `end`
follows. With `--json --text` a list of bytes that is a text is
`{\"text\":\"T\"}`. Its last byte is zero. T is all bytes before that one: UTF-8
without control characters other than tab, newline and carriage return.
With `--at` only what is at one path in each message is written, with a line
`end` of its own. If nothing is there, the line is `none`, or with `--json` an
empty line. A path is numbers below 2^64 with dots between them, from the root
on: the number of a pointer in a struct, of an element in a list of pointers, or
of a struct in a list of structs. All numbers count from 0.
With `--offsets` each line begins with the byte of the stream at which its part
lies, and a tab. Bytes count from 0, in form packed in what the input unpacks
to. The line `end` has the byte after the message. With `--ways` each line
begins with the path to its part, or `root`, and a tab.

Exit status:
  0  Done
  1  A message was rejected; those before it have been written, or with `--one`
     nothing
  2  The command line is wrong
  3  Reading or writing failed, the input is longer than 2^32 bytes, or with
     `--at`, `--text`, `--json`, `--offsets` or `--ways`, without `--one`, than
     2^64 - 1, or memory ran out
With status 1 or 3, one line on standard error says why. The manual page has
these lines under DIAGNOSTICS.",
};

/// The page for `check`.
pub const CHECK: Page = Page {
    first: "To reject what is invalid or too costly before a reader gets it:
  capn check --budget 100000 --depth 20 < message",
    usage: "capn check [OPTIONS] < INPUT",
    about: "Writes `ok paid P visits V` for each message: what reading it costs",
    more: "P is the cost in words, which `--budget` limits. V is the number of pointers
that were followed, the root and null pointers among them. With `--form bare`
the line ends with `canonical` if the input is the canonical bytes of its
message, and otherwise with `not-canonical`.
The line of a message is written as soon as the message is complete. With
`--one` the whole input is read first, and nothing is written unless it is
exactly one message.

Exit status:
  0  Done
  1  A message was rejected; the lines of those before it have been written, or
     with `--one` nothing
  2  The command line is wrong
  3  Reading or writing failed, the input is longer than 2^32 bytes, or memory
     ran out
With status 1 or 3, one line on standard error says why. The manual page has
these lines under DIAGNOSTICS.",
};

/// The page for `explain`.
pub const EXPLAIN: Page = Page {
    first: "To learn why a message is rejected, or why it isn't canonical:
  capn explain < messages
  capn explain --number 3 < messages
To explain every message that is rejected:
  capn explain --keep-going < messages",
    usage: "capn explain [OPTIONS] < INPUT",
    about: "Explains the first message that is rejected, down to the byte",
    more: "The lines `KEY: TEXT` say which message it is, where it begins, and why it is
rejected. If a pointer is at fault, they also say the path from the root to it
(`way`), the byte at which it lies, and what it says. Bytes count from the
beginning of the input, with `--form packed` in what it unpacks to. The 16
digits of a word are its bytes in the order in which they lie. Elements count
from 0, as in a path, and `words A to B` end before B.
For a message that is accepted, the lines say what reading it costs, and whether
it is canonical. If it isn't, they say why: its segments, its first capability,
or the first word that differs from its canonical bytes, and what that word is
part of.
If no message is rejected and there is only one, it is explained. If there are
more, or none, the line is `N messages, none refused`.
With `--number` that message is explained, rejected or not. If the input can't
be read so far, the message at which it ends is explained. If there are fewer
messages, the line is `N messages`.
With `--keep-going` every message that is rejected is explained as soon as it is
complete, with an empty line after it. A message whose segment table or packing
is wrong is explained last, because the run can't go on after it. If no message
is rejected, the output is the same as without `--keep-going`.
Without `--keep-going`, nothing is read after the message that is explained. The
input may have any length.
The bytes of a file don't say which form it has, and `capn` doesn't guess the
form. To find it, check the file in all three forms:
  capn check --form stream < file
  capn check --form packed < file
  capn check --form bare < file
If the answer is `ok` in only one form, the file has this form. In a wrong form
the answer is usually an error that doesn't mention the form: `frame: Cut`,
`frame: TooManySegments(22021137)`, `bare: NotWhole(13)` or `NoRoot at 0:0`.
If the answer is `ok` in `stream` and in `bare`, the form is almost certainly
`stream`: nearly every message of one segment with its table can be read as
`bare` too, but then with wrong numbers and texts. If the answer is `ok` in no
form, the message is truncated or invalid, or other bytes come before it.

Exit status:
  0  Done: the message that is explained is accepted, or there is none
  1  The message that is explained is rejected, or with `--keep-going` any
     message was
  2  The command line is wrong
  3  Reading or writing failed, the input is longer than 2^64 - 1 bytes, or
     memory ran out
With status 1 or 3, one line on standard error says why, or two lines with
`--keep-going`. The manual page has these lines under DIAGNOSTICS.",
};

/// The page for `annotate`.
pub const ANNOTATE: Page = Page {
    first: "To see what each word of a message is, and which words no pointer refers to:
  capn annotate < message
  capn annotate < message | grep 'not zero'
To find the messages that hold something that no reader sees:
  capn annotate --summary < messages | grep -v ' hidden 0 '",
    usage: "capn annotate [OPTIONS] < INPUT",
    about: "Writes what each word of each message is, and how often it is read",
    more: "Each word of the segment table and of the segments is in one line. Words that
belong together share a line. A line has seven columns with tabs between them:
  OFFSET  the byte of its first word. Bytes count from the beginning of the
          input, with `--form packed` in what it unpacks to
  PLACE   the segment and the word, as in `0:3`, or `0:3-5` for words 3 to 5
  BYTES   the bytes of its first word in the order in which they lie, with `..`
          after them if the line has more words
  TIMES   how often the words are read if every pointer is followed
  KIND    `pointer`, `null`, `pad` of a far pointer, `tag`, `data`, `list`, which
          are numbers, bytes or bits, `slack`, which is behind the structs of a
          list, `unreached`, which no pointer refers to, or `table`
  WAY     the path to what the first word belongs to, as `show --ways` writes it
  TEXT    what the words say. `cut` are words that canonical bytes leave out.
          `overlap` says that two objects that differ have the same words
Bytes from 0x20 to 0x7e, and a zero that ends their list, go between quotes, at
most 32 of them.
A line has the bytes of its first word alone, and of a text at most 32 bytes.
The other bytes are in the input, from the byte OFFSET on, 8 for each word. So
a line with OFFSET 24 and PLACE `0:2-5` has four words, which are these bytes:
  tail -c +25 message | head -c 32 | od -An -tx1
With `--form packed`, they are in what `capn unpack` writes:
  capn unpack < message | tail -c +25 | head -c 32 | od -An -tx1
`capn` doesn't guess the form of its input. `capn explain --help` says how to
find the form of a file.
The last line of a message has the byte after the message, `end`, and counts of
its words: of all, of each kind, of those that are read twice and more
(`shared`), of those in overlaps, of those that are cut, and of its canonical
bytes, or `-` if it has a capability. `hidden` counts the words of `slack` and
`unreached` that aren't zero, and the lists whose padding isn't. It is no more
than that: some bits of pointers are read by nobody either, such as the offset
in the second word of a landing pad.
The lines of a message are written as soon as it is complete.

Exit status:
  0  Done
  1  A message was rejected; the lines of those before it have been written
  2  The command line is wrong
  3  Reading or writing failed, the input is longer than 2^64 - 1 bytes, or
     memory ran out
With status 1 or 3, one line on standard error says why. The manual page has
these lines under DIAGNOSTICS.",
};

/// The page for `hash`.
pub const HASH: Page = Page {
    first: "To sign messages, or to compare and find them by their values:
  capn hash < messages
  capn hash --one < message",
    usage: "capn hash [OPTIONS] < INPUT",
    about: "Writes the SHA-256 of each message's canonical bytes, one to a line",
    more: "A line has 64 lower-case hexadecimal digits. A message with a capability has no
canonical bytes, and is rejected.
The line of a message is written as soon as the message is complete. With
`--one` the whole input is read first, and nothing is written unless it is
exactly one message.

Exit status:
  0  Done
  1  A message was rejected; the lines of those before it have been written, or
     with `--one` nothing
  2  The command line is wrong
  3  Reading or writing failed, the input is longer than 2^32 bytes, or memory
     ran out
With status 1 or 3, one line on standard error says why. The manual page has
these lines under DIAGNOSTICS.",
};
