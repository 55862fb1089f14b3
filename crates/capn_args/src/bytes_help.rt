//! The pages of help for the commands over bytes and texts.
//! Lines have at most 80 columns.

use crate::help::Page;

/// The page for `pack`.
pub const PACK: Page = Page {
    first: "To make a message smaller, as Cap'n Proto packs it:
  capn pack < message > message.packed",
    usage: "capn pack [OPTIONS] < INPUT",
    about: "Packs the input, whose bytes are whole words",
    more: "Exit status:
  0  Done
  1  The number of bytes is not a multiple of 8; only with `--streaming`
     something was written
  2  The command line is wrong
  3  Reading or writing failed, the input is longer than 2^32 bytes, or with
     `--streaming` than 2^64 - 1, or memory ran out
With status 1 or 3, one line on standard error says why. The manual page has
these lines under DIAGNOSTICS.",
};

/// The page for `unpack`.
pub const UNPACK: Page = Page {
    first: "To get back what was packed:
  capn unpack < message.packed > message",
    usage: "capn unpack [OPTIONS] < INPUT",
    about: "Unpacks the input, which is packed",
    more: "Exit status:
  0  Done
  1  The input is truncated, or unpacks to too many words; only with
     `--streaming` something was written
  2  The command line is wrong
  3  Reading or writing failed, the input is longer than 2^32 bytes, or with
     `--streaming` than 2^64 - 1, or memory ran out
With status 1 or 3, one line on standard error says why. The manual page has
these lines under DIAGNOSTICS.",
};

/// The page for `make`.
pub const MAKE: Page = Page {
    first: "To write a message by hand, or to change one that `show` wrote:
  printf 'struct 1 0\\n  word 0000000000000005\\nend\\n' | capn make > message",
    usage: "capn make [OPTIONS] < TEXTS",
    about: "Makes messages from the text that `show` writes",
    more: "The input has the value of each message in exactly the form in which `show`
writes it, up to its line `end`. The output has the canonical bytes of each
value: as a message of one segment with its segment table, as that message
packed, or as they are. A message is written once its line `end` is read, and
with `--form bare` at the end of the input. An error names the line that is
wrong by its number, counted from 1. A count allocates nothing by itself.
With `--text` a list of bytes may also take one line, as in `show --text`:
`bytes 3 \"ab\\0\"`, with its count or without it. A wrong count is an error, and
so is any spelling that `show --text` doesn't write.

Exit status:
  0  Done
  1  A line or a value was rejected; the messages before it have been written,
     but with `--form bare` nothing
  2  The command line is wrong
  3  Reading or writing failed, the input is longer than 2^64 - 1 bytes, or
     memory ran out
With status 1 or 3, one line on standard error says why. The manual page has
these lines under DIAGNOSTICS.",
};
