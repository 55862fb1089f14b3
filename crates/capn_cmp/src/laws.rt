//! Laws of comparisons, stated by the clauses of functions with empty bodies.

ghost use Rattle.capn_cmp.specs.Laws.{OneCmp, SameExactly, WritesExactly};

/// States two laws of comparisons. The options and the input determine the text and the result. A comparison writes
/// something if and only if a message differs.
pub fn one_text()
    ensures one { OneCmp }
    ensures written { WritesExactly }
{}

/// States when the result of a comparison is `Same`, for a stream of at most 2^64 - 1 bytes: if and only if the stream
/// is at least two accepted messages with the same canonical bytes.
pub fn same_exactly()
    ensures { SameExactly }
{}
