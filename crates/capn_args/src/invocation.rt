//! The types of the invocations, with one variant for each run. `Meaning.antt` states which words mean each variant.

use capn_annotate::AnnotateOrder;
use capn_archive::{ArchiveOrder, FilterOrder, UniqOrder};
use capn_canon::Form;
use capn_cmp::CmpOrder;
use capn_commands::Command;
use capn_explain::{Explain, ExplainRefused};
use capn_serve::{Pick, StreamForm};
use capn_show::Style;
use capn_walk::Limits;

/// The choice of `pack` or `unpack` with `--streaming`. Output is written while the input is read.
#[derive(Clone, Copy, Debug, PartialEq, Eq)]
pub enum Flow {
    /// Packs the input. Before each read, fewer than 4,096 of the bytes read so far are not packed yet.
    Pack,
    /// Unpacks the input. Before each read, the words of all complete groups have been written.
    Unpack,
}

/// The invocation of `show`, which writes each message, or the value at a path from its root, in a style.
#[derive(Clone, Copy, Debug, PartialEq, Eq)]
pub struct Show<'a> {
    /// The encoding of the input.
    pub form: Form,
    /// The limits of a message.
    pub limits: Limits,
    /// The style of the text.
    pub style: Style,
    /// True if each line of a value begins with the byte offset of the slot, row, word or elements that the line shows.
    pub offsets: bool,
    /// True if each line of a value begins with the path to the slot or row of that line. If `offsets` is true too, the
    /// offset comes before the path.
    pub ways: bool,
    /// True if the input must be exactly one message.
    pub one: bool,
    /// The path, which is numbers separated by dots. If there is no path, all of the message is shown.
    pub path: Option<&'a str>,
}

/// The messages that `explain` explains.
#[derive(Clone, Copy, Debug, PartialEq, Eq)]
pub enum Explanation {
    /// One message: the first refused one, or the one with a given number.
    One(Explain),
    /// Every refused message.
    Refused(ExplainRefused),
}

/// The invocation of `pick --only`, which writes the messages of a list unchanged.
#[derive(Clone, Copy, Debug, PartialEq, Eq)]
pub struct Only<'a> {
    /// The encoding of the input.
    pub form: StreamForm,
    /// The limits of a message. Only the limit on its words is used.
    pub limits: Limits,
    /// The list, which is numbers and ranges in ascending order, separated by commas.
    pub list: &'a str,
}

/// The invocation of `make`, which parses texts of values and writes their messages.
#[derive(Clone, Copy, Debug, PartialEq, Eq)]
pub struct Make {
    /// The encoding of the messages.
    pub form: Form,
    /// True if a list of bytes may be written as a text between quotes.
    pub quoted: bool,
}

/// The run that a command line orders.
#[derive(Clone, Copy, Debug, PartialEq, Eq)]
pub enum Invocation<'a> {
    /// A command over messages or bytes, whose input has a limit on its length.
    Message(Command),
    /// Shows each message of an input, or the value at a path from each root, in a style or with marks.
    Show(Show<'a>),
    /// Explains one message of an input of any length, or every refused one.
    Explain(Explanation),
    /// Writes a line for all words of each message of an input, or how many words it has of each kind.
    Annotate(AnnotateOrder),
    /// Runs `list`, `limits` or `canonical --framed` over an archive of any length.
    Archive(ArchiveOrder),
    /// Writes the messages of an archive without duplicates, or only the numbers of different messages and of all.
    Uniq(UniqOrder),
    /// Writes the accepted messages of an archive, or only the canonical ones, unchanged.
    Filter(FilterOrder),
    /// Tests whether all messages of a stream have the value of the first one.
    Cmp(CmpOrder),
    /// Writes the messages of a stream from one number to another, unchanged.
    Pick(Pick),
    /// Writes the messages of a stream whose numbers are in a list, unchanged.
    Only(Only<'a>),
    /// Packs or unpacks the input while it is read, in bounded memory.
    Flow(Flow),
    /// Parses the texts of an input, and writes their messages in a form.
    Make(Make),
}
