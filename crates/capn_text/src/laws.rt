//! The laws of texts, as the contracts of functions that do nothing.

ghost use Rattle.capn_text.specs.Laws.{TextsAreApart, FittingIsShowable, OneValue, OneStream, StreamGoesOn};
ghost use Rattle.capn_text.specs.Laws.{OneWrongLine, WrongIsNotDeep, DeepIsHigh};
ghost use Rattle.capn_text.specs.Laws.{WrongLineStays, NoTextGoesOn, DeepStays, NoBeginningComes};
ghost use Rattle.capn_text.specs.PlainLaws.{QuotedIsPlain, OnePlain, PlainIsFound, OwnLineIsFound};

/// States that no text of a showable value is a prefix of the text of another showable value. A showable value has
/// numbers in range, and counts below 2^64, or below 2^32 for elements without bits. Each value that fits and is in
/// range is showable. A text is the text of at most one value that fits and is in range.
pub fn texts()
    ensures apart { TextsAreApart }
    ensures showable { FittingIsShowable }
    ensures one { OneValue }
{}

/// States that a stream of texts is the stream of at most one list of showable values. A stream, followed by a text and
/// its line `end`, is a stream with one more value. A loop over [`crate::Texts::read_next`] uses this law to prove that
/// the input is the stream of the values that were read, and then the bytes that are left.
pub fn streams()
    ensures one { OneStream }
    ensures goes_on { StreamGoesOn }
{}

/// States that a text has at most one first wrong line. A text with a first wrong line does not go too deep. If the
/// text of a showable value is a prefix of a text that goes too deep, the value has more than 256 levels.
pub fn refusals()
    ensures wrong { OneWrongLine }
    ensures deep { WrongIsNotDeep }
    ensures high { DeepIsHigh }
{}

/// States that later bytes do not change what the complete lines of a text decide: which line is the first wrong one,
/// that no text with its line `end` comes before it, that the text goes too deep, that the first line begins no value.
pub fn whole_lines()
    ensures wrong { WrongLineStays }
    ensures none { NoTextGoesOn }
    ensures deep { DeepStays }
    ensures first { NoBeginningComes }
{}

/// States that the plain form of `quoted_stream vs`, for showable values `vs`, is `stream_text vs`. A text of fewer
/// than 2^64 bytes has exactly one plain form. Each line of that form belongs to a line of the text.
pub fn plain_forms()
    ensures shown { QuotedIsPlain }
    ensures one { OnePlain }
    ensures found { PlainIsFound }
    ensures own { OwnLineIsFound }
{}
