//! The law of texts with marks, as the contract of an empty function.

ghost use Rattle.capn_marks.specs.Laws.{WithoutMarks};

/// States that the text with marks equals the text in lines if the marks have neither offsets nor paths.
pub fn without_marks()
    ensures { WithoutMarks }
{}
