//! The law that JSON with strings loses nothing, as the contract of an empty function.

ghost use Rattle.capn_show.specs.Laws.{OneJson};

/// States that [`crate::Style::JsonText`] loses nothing: two lists of bytes with the same JSON are equal.
pub fn json_texts()
    ensures { OneJson }
{}
