//! The commands of the tool.

use crate::plan::MessageText;
use capn_canon::Form;
use capn_walk::Limits;

/// The command that a run carries out on its input.
#[derive(Clone, Copy, Debug, PartialEq, Eq)]
pub enum Command {
    /// Writes the text of each message, and a line `end` after each.
    Show(Form, Limits),
    /// Writes for each message a line with the price of its walk and the number of visits.
    Check(Form, Limits),
    /// Writes the packed text of the input, which has to be complete words.
    Pack,
    /// Writes the words that the input unpacks to. The number is the greatest number of words that are accepted.
    Unpack(u32),
    /// Writes the canonical bytes of the input, which has to be exactly one message.
    Canonical(Form, Limits),
    /// Writes for each message a line with the SHA-256 of its canonical bytes.
    Hash(Form, Limits),
    /// Writes the output of `show`, `check` or `hash` for the input, which has to be exactly one message.
    One(MessageText, Form, Limits),
}
