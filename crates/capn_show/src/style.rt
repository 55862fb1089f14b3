//! The styles in which the text of a value is written.

ghost use Rattle.std.specs.Prelude.{◌≡◌};
ghost use Rattle.capn_show.specs.Style as spec;

/// A style of the text of a value.
#[derive(Clone, Copy, Debug, PartialEq, Eq)]
pub enum Style {
    /// Lines, in which every list of bytes is written in digits.
    Lines,
    /// Lines, in which a list of bytes that is a text ([`capn_quoted::is_text`]) is written between quotes.
    Quoted,
    /// One line of JSON, in which every list of bytes is written in digits.
    Json,
    /// One line of JSON, in which a list of bytes that is a clear text ([`capn_quoted::is_clear_text`]) is written as a
    /// string.
    JsonText,
}

impl Style {
    /// Returns the bytes after the text of a message: the line `end` for a style of lines, and none for JSON.
    pub fn end(self) -> &'static [u8]
        ensures { result.now ≡ spec.end_of self }
    {
        match self {
            Style::Lines | Style::Quoted => b"end\n",
            Style::Json | Style::JsonText => b"",
        }
    }

    /// Returns `true` for a style of lines. In such a style, an offset and a path can stand before each line.
    pub fn has_lines(self) -> bool
        ensures { result ≡ spec.has_lines self }
    {
        match self {
            Style::Lines | Style::Quoted => true,
            Style::Json | Style::JsonText => false,
        }
    }

    /// Returns `true` for the style of lines in which texts are written between quotes.
    pub fn is_quoted(self) -> bool
        ensures { result ≡ spec.is_quoted self }
    {
        match self {
            Style::Quoted => true,
            Style::Lines | Style::Json | Style::JsonText => false,
        }
    }
}
