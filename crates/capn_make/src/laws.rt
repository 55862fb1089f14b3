//! Laws of the messages that are written for texts, as contracts of functions that do nothing.

ghost use Rattle.capn_make.specs.Laws.{ShownAreMade, ShownAreMadeOnly, OneShownIsMade, OneShownIsMadeOnly};
ghost use Rattle.capn_make.specs.Laws.{FramedAreFrames, OneMaking, OneBareMaking, OneTextInFrames};
ghost use Rattle.capn_make.specs.Laws.{FaultStays, RefusalStays, OneEnding, MakingEnds};
ghost use Rattle.capn_make.specs.Laws.{QuotedAreMade, RefusedAfter, UnendedIsLast};
ghost use Rattle.capn_make.specs.Laws.{OneDeciding, DecidedStay, UnendedIsStuck, RefusedIsStuck};

use capn_canon::laws::canonicity;
use capn_text::laws::{plain_forms, refusals, texts, whole_lines};

/// States that [`crate::make`] parses the texts that [`capn_value::show`] writes for values, each with its line `end`,
/// and writes exactly the messages of these values, in order. The values have to fit, be in range and have no
/// capability.
pub fn showing()
    ensures made { ShownAreMade }
    ensures only { ShownAreMadeOnly }
    ensures one { OneShownIsMade }
    ensures one_only { OneShownIsMadeOnly }
{
    texts();
    refusals();
}

/// States that a run on an input has one result, and writes the messages of one list of values.
pub fn making()
    ensures one { OneMaking }
    ensures bare { OneBareMaking }
    ensures text { OneTextInFrames }
{
    texts();
    refusals();
}

/// States that an input is refused whatever bytes follow, if the bytes that cause the fault are complete: either a text
/// with its line `end`, or a wrong line with its newline.
pub fn refusing()
    ensures stays { FaultStays }
    ensures goes_on { RefusalStays }
    ensures one { OneEnding }
    ensures ends { MakingEnds }
{
    texts();
    refusals();
    whole_lines();
}

/// States that the complete texts at the front of some bytes have one list of values, and that more bytes can only
/// append values to the list.
pub fn deciding()
    ensures one { OneDeciding }
    ensures stay { DecidedStay }
    ensures unended { UnendedIsStuck }
{
    texts();
}

/// States that no further text becomes complete in an input that is refused for good, whatever bytes follow.
pub fn stuck()
    ensures { RefusedIsStuck }
{
    texts();
    refusals();
    whole_lines();
}

/// States that a fault after the texts at the front of an input names no line before the end of those texts.
pub fn following()
    ensures after { RefusedAfter }
    ensures last { UnendedIsLast }
{
    texts();
    refusals();
}

/// States that the bytes written for a value in [`crate::Form::Stream`] are a frame of one segment, as [`capn_canon`]
/// reads frames.
pub fn framing()
    ensures { FramedAreFrames }
{
    canonicity();
}

/// States that texts shown with lists between quotes have the same messages as the texts without quotes.
pub fn quoting()
    ensures { QuotedAreMade }
{
    plain_forms();
}
