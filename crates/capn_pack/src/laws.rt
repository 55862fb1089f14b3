//! The laws of packed texts, as empty functions.
ghost use Rattle.capn_pack.specs.Laws.{EachSplits, FedIsReached, HoweverCut, NewIsReached, OneReading, OneRefusal};
ghost use Rattle.capn_pack.specs.Laws.{OneSplit, PackedAreNotRefused};

/// States three laws. A text packs at most one list of words. For a given maximum of words, a text is refused for at
/// most one reason other than `Memory`. A text that packs words within the maximum is refused for `Memory` only.
pub fn reading()
    ensures one { OneReading }
    ensures refusal { OneRefusal }
    ensures apart { PackedAreNotRefused }
{}

/// States that there is exactly one way to split a text into complete groups and a rest that begins with no complete
/// group.
pub fn splitting()
    ensures all { EachSplits }
    ensures one { OneSplit }
{}

/// States that two unpackers with the same past append the same words for the same bytes, however the bytes are cut
/// into pieces. After these bytes, the unpackers are in the same state, and `finish` returns the same result. The law
/// is of calls of `feed` that return `Ok`, so that no allocation is refused. The states of which the law holds are the
/// state of a new unpacker, and each state that `feed` leads to.
pub fn cutting()
    ensures cut { HoweverCut }
    ensures fresh { NewIsReached }
    ensures fed { FedIsReached }
{}
