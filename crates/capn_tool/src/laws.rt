//! Laws of command lines and of shown texts, stated by the clauses of functions with empty bodies.

ghost use Rattle.capn_tool.specs.Laws.{OneShown, OneShownAlone};

pub use capn_args::laws::{command, meaning};

/// States that the options of `show` and an input determine the text that is shown, and how the run ends.
pub fn one_text()
    ensures { OneShown }
{}

/// States that the options of `show` and an input of exactly one message determine the text that is shown, and how the
/// run ends.
pub fn one_alone()
    ensures { OneShownAlone }
{}
