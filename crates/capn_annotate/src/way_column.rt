//! The way of a line, as one column. Stored cases and docs/DEBUGGING.md have it as `annotate` prints it.

use capn_diagnostics::PathText;
use capn_lines::Kind;
use std::fmt;

/// The way of the first word of a line, displayed with dots between its numbers. It is empty for words that nothing
/// covers.
#[derive(Clone, Copy, Debug, PartialEq, Eq)]
pub struct WayColumn<'a> {
    /// The kind of the line's words.
    pub kind: Kind,
    /// The numbers that lead from the root to the first word.
    pub path: &'a [u32],
}

impl<'a> fmt::Display for WayColumn<'a> {
    ghost use Rattle.std.specs.Prelude.{Some};
    ghost use Rattle.capn_annotate.specs.Columns.{way_column};

    ghost output = { λ column. Some (way_column column.kind column.path.now) };

    fn fmt<W: fmt::Write>(&self, f: &mut fmt::Formatter<W>) -> fmt::Result {
        match self.kind {
            Kind::Unreached => write!(f, ""),
            _ => write!(f, "{}", PathText(self.path)),
        }
    }
}
