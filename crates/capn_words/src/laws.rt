//! The laws of one segment, as an empty function.

ghost use Rattle.capn_words.specs.Laws.{BareAreNotRefused, OneBareReading, OneBareRefusal};

/// States three laws of reading bytes as one segment. At most one list of words has the bytes. The bytes are refused
/// for at most one reason. No bytes are both read and refused.
pub fn one_segment()
    ensures one { OneBareReading }
    ensures refusal { OneBareRefusal }
    ensures apart { BareAreNotRefused }
{}
