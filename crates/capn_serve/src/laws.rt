//! The law of picking messages, stated by the clause of a function with an empty body.

ghost use Rattle.capn_serve.specs.Laws.{PicksOne};

/// States that the ranges and a stream of frames determine the text that is picked, and how the run ends.
///
/// A run over a packed stream that unpacks to more than 2^64 - 1 bytes may end in two ways: with `Ok`, or with
/// `InputTooLong`.
pub fn picking()
    ensures { PicksOne }
{}
