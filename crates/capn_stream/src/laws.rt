//! The laws of frames and of framers, as empty functions.

ghost use Rattle.capn_stream.specs.Laws.{FramedAreNotRefused, HoweverCut, OneFrame, OneRefusal};

/// States that bytes begin with the frame of at most one message, and are refused for at most one reason other than
/// `Memory`. Bytes that begin with a frame within the limit are refused for `Memory` only.
pub fn framing()
    ensures one { OneFrame }
    ensures refusal { OneRefusal }
    ensures apart { FramedAreNotRefused }
{}

/// States that two framers with the same past give the same messages of the same bytes, however the bytes are cut into
/// pieces, and that no more messages follow for the same reason. The reason is that the bytes end, before or within a
/// frame, or the error that `feed` returns, other than `Memory`.
pub fn cutting()
    ensures { HoweverCut }
{}
