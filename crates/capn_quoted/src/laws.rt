//! The laws of texts between quotes, as the contracts of a function that does nothing.

ghost use Rattle.capn_quoted.specs.Laws.{ByCodePoints, IsReadBack, IsWritten};

/// States that a text is written code point by code point, that what is written of a text is read as that text, and
/// that nothing else is read.
pub fn quoted_texts()
    ensures points { ByCodePoints }
    ensures back { IsReadBack }
    ensures only { IsWritten }
{}
