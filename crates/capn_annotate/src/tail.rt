//! The end of the text of a line. Stored cases and docs/DEBUGGING.md have it as `annotate` prints it.

use capn_words::Width;
use std::fmt;

/// The bits behind the last element of a list, displayed behind the list. If there are none, nothing is displayed.
#[derive(Clone, Copy, Debug, PartialEq, Eq)]
pub struct PaddingText {
    /// The width of an element. Behind a list of bits, bits are counted, and behind any other list bytes.
    pub width: Width,
    /// The number of bits.
    pub bits: u32,
    /// True if one of these bits is 1.
    pub not_zero: bool,
}

/// The length of padding, displayed with its unit.
#[derive(Drop)]
struct PaddingLength {
    width: Width,
    bits: u32,
}

impl fmt::Display for PaddingLength {
    ghost use Rattle.std.specs.Prelude.{Some};
    ghost use Rattle.capn_annotate.specs.LineTexts.{padding_length};

    ghost output = { λ length. Some (padding_length length.width length.bits) };

    fn fmt<W: fmt::Write>(&self, f: &mut fmt::Formatter<W>) -> fmt::Result {
        match self.width {
            Width::W1 => write!(f, "{} bits", self.bits),
            _ => write!(f, "{} bytes", self.bits / 8),
        }
    }
}

impl fmt::Display for PaddingText {
    ghost use Rattle.std.specs.Prelude.{Some};
    ghost use Rattle.capn_annotate.specs.LineTexts.{padding_text};

    ghost output = { λ padding. Some (padding_text padding.width padding.bits padding.not_zero) };

    fn fmt<W: fmt::Write>(&self, f: &mut fmt::Formatter<W>) -> fmt::Result {
        if self.bits == 0 {
            return write!(f, "");
        }
        let length = PaddingLength {
            width: self.width,
            bits: self.bits,
        };
        if self.not_zero {
            write!(f, ", padding {length} not zero")
        } else {
            write!(f, ", padding {length}")
        }
    }
}

/// The number of words of a line that canonical bytes leave out, and whether the words are an overlap, displayed at the
/// end of the line.
#[derive(Clone, Copy, Debug, PartialEq, Eq)]
pub struct Tail {
    /// The number of words that are left out.
    pub cut: u32,
    /// True if the words are an overlap.
    pub overlap: bool,
}

/// The number of words that are left out, displayed if there are any.
#[derive(Drop)]
struct Cut(u32);

impl fmt::Display for Cut {
    ghost use Rattle.std.specs.Prelude.{Some};
    ghost use Rattle.capn_annotate.specs.LineTexts.{cut_text};

    ghost output = { λ cut. Some (cut_text cut.0) };

    fn fmt<W: fmt::Write>(&self, f: &mut fmt::Formatter<W>) -> fmt::Result {
        let count = self.0;
        if count == 0 {
            write!(f, "")
        } else {
            write!(f, ", {count} cut")
        }
    }
}

impl fmt::Display for Tail {
    ghost use Rattle.std.specs.Prelude.{Some};
    ghost use Rattle.capn_annotate.specs.LineTexts.{tail_text};

    ghost output = { λ tail. Some (tail_text tail.cut tail.overlap) };

    fn fmt<W: fmt::Write>(&self, f: &mut fmt::Formatter<W>) -> fmt::Result {
        let cut = Cut(self.cut);
        if self.overlap {
            write!(f, "{cut}, overlap\n")
        } else {
            write!(f, "{cut}\n")
        }
    }
}
