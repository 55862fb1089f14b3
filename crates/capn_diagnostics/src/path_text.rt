//! The text of a path. Stored cases and docs/DIAGNOSTICS.md have it as `explain` prints it.

use std::fmt;

/// The numbers that lead from the root of a message to a slot, displayed with dots between them. An empty path is
/// displayed as `root`.
#[derive(Clone, Copy, Debug, PartialEq, Eq)]
pub struct PathText<'a>(pub &'a [u32]);

impl<'a> fmt::Display for PathText<'a> {
    ghost use Rattle.std.specs.Prelude.{Some};
    ghost use Rattle.capn_diagnostics.specs.Texts.{path_text};

    ghost output = { λ text. Some (path_text text.0.now) };

    fn fmt<W: fmt::Write>(&self, f: &mut fmt::Formatter<W>) -> fmt::Result {
        let path = self.0;
        if path.len() == 0 {
            return write!(f, "root");
        }
        write!(f, "{}", path[0])?;
        for i in 1..path.len() {
            write!(f, ".{}", path[i])?;
        }
        Ok(())
    }
}
