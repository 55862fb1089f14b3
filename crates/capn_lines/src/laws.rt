//! The laws of the lines of a message, as an empty function.

ghost use Rattle.capn_lines.specs.Laws.{LinesHaveAllWords, LongLinesMayJoin, OverlapsTogether, WordsOfOneLineAgree};

/// States four laws of the lines of any message. The words of a segment's lines, one line after another, are the words
/// of the segment in order, so each word is in exactly one line. The words of one line agree in their kind, in the slot
/// to whose visit they belong, and in how often they are covered. A pointer, a word of a landing pad and a tag have a
/// line each. If the message is accepted, the words of one line are all overlaps, or none is.
pub fn lines_of_a_message()
    ensures all { LinesHaveAllWords }
    ensures agree { WordsOfOneLineAgree }
    ensures long { LongLinesMayJoin }
    ensures together { OverlapsTogether }
{}
