//! The pages of help for the commands that take a stream of any length.
//! Lines have at most 80 columns.

use crate::help::Page;

/// The page for `list`.
pub const LIST: Page = Page {
    first: "To see which messages a stream has, and which of them are rejected:
  capn list < messages
  capn list --keep-going --digest < messages",
    usage: "capn list [OPTIONS] < INPUT",
    about: "Writes a line for each message: its place, size, cost and form",
    more: "The line is `N at A bytes B segments S words W paid P visits V depth D
capability C canonical Y`. N is the number of the message, counted from 1. A is
the number of bytes of the stream before it, which are counted unpacked. B is
the number of bytes of the message with its segment table, S of its segments,
and W of its words. P and V are as `check` writes them. D is the least `--depth`
with which the message is accepted. C is the index of its first capability, or
`no`. Y is `yes` if the message is its canonical bytes after the table of one
segment, else `no`. With `--digest` the line goes on with `sha256` and the
digest that `hash` writes, or `-` if the message has a capability.
With `--keep-going` the line of a message that is rejected ends after W with
`refused` and the reason.
The line of a message is written as soon as the message is complete. The input
may have any length.

Exit status:
  0  Done
  1  A message was rejected; the lines of those before it have been written, and
     with `--keep-going` those of all messages
  2  The command line is wrong
  3  Reading or writing failed, the input is longer than 2^64 - 1 bytes, or
     memory ran out
With status 1 or 3, one line on standard error says why, or two lines with
`--keep-going`. The manual page has these lines under DIAGNOSTICS.",
};

/// The page for `limits`.
pub const LIMITS: Page = Page {
    first: "To find the limits with which your own messages can be read:
  capn limits --message-words 268435456 --budget 268435456 --depth 256 < A",
    usage: "capn limits [OPTIONS] < INPUT",
    about: "Writes which limits the messages need, and some to read them with",
    more: "Five lines come at the end. `messages N` has the number of messages.
`message-words W message M`, `budget P message M` and `depth D message M` have
the greatest number of words, cost and depth of a message, each with the number
of the first message that has it, or 0 if there is no message. The line that
begins with `use` has options that leave room: four times the words and the
cost, and twice the depth, as far as each option goes.
The limits of the command line hold here too: a message above them is rejected.
With `--keep-going` a message that is rejected counts in N alone.
The input may have any length. If it has no message, the first line is
`messages 0`, and the last one has the least limits.

Exit status:
  0  Done
  1  A message was rejected, and nothing was written; with `--keep-going` the
     lines have been written
  2  The command line is wrong
  3  Reading or writing failed, the input is longer than 2^64 - 1 bytes, or
     memory ran out
With status 1 or 3, one line on standard error says why, or two lines with
`--keep-going`. The manual page has these lines under DIAGNOSTICS.",
};

/// The page for `canonical`.
pub const CANONICAL: Page = Page {
    first: "To get the same bytes for the same value, whoever wrote the message:
  capn canonical < message > message.canonical
  capn canonical --framed < messages > messages.canonical",
    usage: "capn canonical [OPTIONS] < INPUT",
    about: "Writes the canonical bytes of one message, or `--framed` of each",
    more: "Canonical bytes are the words of one segment, without a segment table, and not
packed. Two messages have equal canonical bytes if and only if they have the
same value. Zero words and null pointers at the end of a struct count as absent.
A message with a capability has no canonical bytes, and is rejected.
With `--framed` the input may have any number of messages and any length. The
output is a stream then: the canonical bytes of each message, after the segment
table of one segment, as soon as the message is complete.

Exit status:
  0  Done
  1  The input was rejected, and nothing was written; with `--framed` a message
     was rejected, and those before it, or with `--keep-going` all others, have
     been written
  2  The command line is wrong
  3  Reading or writing failed, the input is longer than 2^32 bytes, or with
     `--framed` than 2^64 - 1, or memory ran out
With status 1 or 3, one line on standard error says why, or two lines with
`--keep-going`. The manual page has these lines under DIAGNOSTICS.",
};

/// The page for `uniq`.
pub const UNIQ: Page = Page {
    first: "To keep one message of each value, or to count the values:
  capn uniq < messages > distinct
  capn uniq --count < messages",
    usage: "capn uniq [OPTIONS] < INPUT",
    about: "Writes each message whose value no message before it had",
    more: "Values are compared by the SHA-256 of their canonical bytes, as `hash` writes
it. A message is written unchanged, with its segment table. A packed message is
written unpacked, and a bare input as it is. A message with a capability has no
canonical bytes, and is rejected.
With `--count` only a line `U of N` is written at the end: U messages would be
written, of N that were not rejected.
A message is written as soon as it is complete. The input may have any length.
Memory grows by at most 72 bytes for each message that is written.

Exit status:
  0  Done
  1  A message was rejected; those kept before it have been written, and with
     `--keep-going` all that are kept. Without it `--count` wrote nothing
  2  The command line is wrong
  3  Reading or writing failed, the input is longer than 2^64 - 1 bytes, or
     memory ran out
With status 1 or 3, one line on standard error says why, or two lines with
`--keep-going`. The manual page has these lines under DIAGNOSTICS.",
};

/// The page for `filter`.
pub const FILTER: Page = Page {
    first: "To pass on only what is accepted, before a reader that sets itself no limits:
  capn filter --keep-going < messages | reader
  capn filter --canonical < messages > canonical-ones",
    usage: "capn filter [OPTIONS] < INPUT",
    about: "Writes each message that is accepted, and leaves out the others",
    more: "A message is written unchanged, with its segment table. A packed message is
written unpacked, and a bare input as it is. A message that `list` rejects with
the same limits ends the run, and neither it nor any after it is written. With
`--keep-going` it is left out, and the run goes on. A message with a capability
is written, except with `--canonical`. Then every message that is not canonical
is rejected as `not canonical`, those with a capability among them.
`capn explain --number N` says why a message isn't canonical.
A message is written as soon as it is complete. The input may have any length.

Exit status:
  0  Done
  1  A message was rejected; those before it have been written, and with
     `--keep-going` all others
  2  The command line is wrong
  3  Reading or writing failed, the input is longer than 2^64 - 1 bytes, or
     memory ran out
With status 1 or 3, one line on standard error says why, or two lines with
`--keep-going`. The manual page has these lines under DIAGNOSTICS.",
};

/// The page for `cmp`.
pub const CMP: Page = Page {
    first: "To find out whether two messages have the same value, and where they differ:
  cat one two | capn cmp",
    usage: "capn cmp [OPTIONS] < INPUT",
    about: "Finds whether all messages have the value of the first one",
    more: "Values are the same if their canonical bytes are equal. If a message differs,
three lines say which one, and have the first lines that differ in what
`show --ways` writes for the first message and for this one:
  message N at A differs from message 1
  < LINE
  > LINE
Nothing is read after that. A message with a capability has no canonical bytes,
and is rejected. Each message is compared as soon as it is complete. The input
may have any length.

Exit status:
  0  All messages have the same value
  1  A message differs, and the three lines were written; or a message was
     rejected, or there are fewer than two, and nothing was written
  2  The command line is wrong
  3  Reading or writing failed, the input is longer than 2^64 - 1 bytes, or
     memory ran out
With status 3, and with status 1 if no message differs, one line on standard
error says why. The manual page has these lines under DIAGNOSTICS.",
};

/// The page for `pick`.
pub const PICK: Page = Page {
    first: "To take messages out of a stream by their numbers:
  capn pick --from 3 --to 3 < messages > message
  capn pick --only 3,7,9-12 < messages > some",
    usage: "capn pick [OPTIONS] < INPUT",
    about: "Writes some of the messages of a stream, unchanged",
    more: "Messages are numbered from 1, as `list` numbers them. Those from `--from` to
`--to`, or those of `--only`, are written unchanged, with their segment tables.
Messages of a packed stream are written unpacked. The contents of messages are
not checked, and what follows the last one is not looked at. If there are fewer
messages, those that are there are written. A message is written as soon as it
is complete. The input may have any length.

Exit status:
  0  Done
  1  A segment table was rejected, or the input is truncated, before the end of
     the last message; the messages before that have been written
  2  The command line is wrong
  3  Reading or writing failed, the input is longer than 2^64 - 1 bytes, or
     memory ran out
With status 1 or 3, one line on standard error says why. The manual page has
these lines under DIAGNOSTICS.",
};
