//! The laws of the calls for C, as empty functions.

ghost use Rattle.capn_c.specs.AsFramed.{HeldAreAnsweredAsFramed, HeldAreRefusedAsFramed};
ghost use Rattle.capn_c.specs.Offsets.{OffsetsAreOfContents, OffsetsAreOfPlaces};

use capn_walk::laws::indexes;

/// States a law for streams and bare words: the words at the place of an entry are in the bytes, at the entry's offset.
/// So the content of a slot's target is in the bytes, at the offset of the slot's entry.
pub fn offsets()
    ensures places { OffsetsAreOfPlaces }
    ensures contents { OffsetsAreOfContents }
{
    indexes();
}

/// States that a message that is held in segments has the result and the refusals of a frame of the same segments.
pub fn segments()
    ensures answered { HeldAreAnsweredAsFramed }
    ensures refused { HeldAreRefusedAsFramed }
{}
