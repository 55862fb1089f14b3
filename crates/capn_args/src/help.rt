//! The version, the type of a page of help, and the page for the program.

/// A page of help, for the program or for one command.
#[derive(Clone, Copy)]
pub struct Page {
    /// The purpose of the command, with examples.
    pub first: &'static str,
    /// The form of the command line.
    pub usage: &'static str,
    /// A summary, which for a command is one line.
    pub about: &'static str,
    /// The details: input, output and exit statuses.
    pub more: &'static str,
}

/// The version, as the file VERSION has it.
pub const VERSION: &str = "1.1.0-dev";

/// The line that `--version` writes.
pub const VERSION_LINE: &[u8] = b"capn 1.1.0-dev\n";

/// The title of every page of help, which names the version, and an empty line after the title.
pub const TITLE: &str =
    "capn 1.1.0-dev: Cap'n Proto messages without a schema, standard input to output\n\n";

/// The page of help for the program.
pub const PROGRAM: Page = Page {
    first: "To see what a message contains, and to reject it before a reader gets it:
  capn show < message
  capn check --budget 100000 --depth 20 < message",
    usage: "capn <COMMAND> [OPTIONS] < INPUT",
    about: "Shows, checks, lists, hashes, compares, packs and unpacks messages, writes their
canonical bytes, finds which limits they need, and explains errors. No message
can make it read forever: following a pointer costs words of the traversal limit
(`--budget`), and the depth of objects has a limit (`--depth`).",
    more: "Input is standard input, and output is standard output.
`capn <COMMAND> --help` says what a command is for, what it reads and writes.

Exit status:
  0  Done
  1  The input or a message in it was rejected, or `cmp` found that one differs
  2  The command line is wrong
  3  Reading or writing failed, the input is longer than the command takes, or
     memory ran out
With status 1 or 3, one line on standard error says why, but `cmp` writes what
differs to standard output. The manual page has these lines under DIAGNOSTICS.",
};
