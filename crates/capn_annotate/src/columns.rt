//! The columns of a line before its way. Stored cases and docs/DEBUGGING.md have them as `annotate` prints them.

use capn_diagnostics::WordText;
use capn_lines::Kind;
use capn_words::Place;
use std::fmt;

/// The name of a kind, displayed as one word.
#[derive(Drop)]
struct KindName(Kind);

impl fmt::Display for KindName {
    ghost use Rattle.std.specs.Prelude.{Some};
    ghost use Rattle.capn_annotate.specs.Columns.{kind_name};

    ghost output = { λ name. Some (kind_name name.0) };

    fn fmt<W: fmt::Write>(&self, f: &mut fmt::Formatter<W>) -> fmt::Result {
        match self.0 {
            Kind::Pointer => write!(f, "pointer"),
            Kind::Null => write!(f, "null"),
            Kind::Pad => write!(f, "pad"),
            Kind::Tag => write!(f, "tag"),
            Kind::Data => write!(f, "data"),
            Kind::List => write!(f, "list"),
            Kind::Slack => write!(f, "slack"),
            Kind::Unreached => write!(f, "unreached"),
        }
    }
}

/// The place of the first word of a line, and the index of the last one if there are several, displayed as one column.
#[derive(Drop)]
struct PlaceColumn {
    place: Place,
    words: u32,
}

impl fmt::Display for PlaceColumn {
    ghost use Rattle.std.specs.Prelude.{Some};
    ghost use Rattle.capn_annotate.specs.Columns.{place_column};

    ghost output = { λ column. Some (place_column column.place column.words) };

    fn fmt<W: fmt::Write>(&self, f: &mut fmt::Formatter<W>) -> fmt::Result {
        let segment = self.place.segment;
        let word = self.place.word;
        if self.words < 2 {
            write!(f, "{segment}:{word}")
        } else {
            let last = word as u64 + (self.words as u64 - 1);
            write!(f, "{segment}:{word}-{last}")
        }
    }
}

/// The bytes of the first word of a line, and two dots if more words follow, displayed as one column.
#[derive(Drop)]
struct BytesColumn {
    word: u64,
    words: u32,
}

impl fmt::Display for BytesColumn {
    ghost use Rattle.std.specs.Prelude.{Some};
    ghost use Rattle.capn_annotate.specs.Columns.{bytes_column};

    ghost output = { λ column. Some (bytes_column column.word column.words) };

    fn fmt<W: fmt::Write>(&self, f: &mut fmt::Formatter<W>) -> fmt::Result {
        let bytes = WordText(self.word);
        if self.words < 2 {
            write!(f, "{bytes}")
        } else {
            write!(f, "{bytes}..")
        }
    }
}

/// The columns of a line before its way, displayed with a tab behind each.
#[derive(Clone, Copy, Debug, PartialEq, Eq)]
pub struct Columns {
    /// The byte of the stream at which the first word lies.
    pub byte: u128,
    /// The place of the first word.
    pub place: Place,
    /// The number of words of the line.
    pub words: u32,
    /// The first word.
    pub word: u64,
    /// The number of times that each of the words is covered.
    pub times: u32,
    /// The kind of the words.
    pub kind: Kind,
}

impl fmt::Display for Columns {
    ghost use Rattle.std.specs.Prelude.{Some};
    ghost use Rattle.capn_annotate.specs.Columns.{columns_text};

    ghost output = { λ columns. Some (columns_text columns) };

    fn fmt<W: fmt::Write>(&self, f: &mut fmt::Formatter<W>) -> fmt::Result {
        let byte = self.byte;
        let place = PlaceColumn {
            place: self.place,
            words: self.words,
        };
        let bytes = BytesColumn {
            word: self.word,
            words: self.words,
        };
        let times = self.times;
        let kind = KindName(self.kind);
        write!(f, "{byte}\t{place}\t{bytes}\t{times}\t{kind}\t")
    }
}
