//! The counts of the words of a message by kind.

ghost use Rattle.std.specs.Prelude.{◌≡◌};
ghost use Rattle.capn_lines.specs.inner.Counted.{none};

/// The numbers of words of a message that are of each kind, and that are shared, overlap, hide something or are cut.
/// (Our own.)
#[derive(Clone, Copy, Debug, PartialEq, Eq)]
pub struct Counts {
    /// The words of all segments.
    pub words: u32,
    /// The slots that are not zero.
    pub pointer: u32,
    /// The slots that are zero.
    pub null: u32,
    /// The words of landing pads.
    pub pad: u32,
    /// The tags of lists of structs.
    pub tag: u32,
    /// The data words of structs.
    pub data: u32,
    /// The words of lists of numbers.
    pub list: u32,
    /// The words behind the structs of lists of structs.
    pub slack: u32,
    /// The words that nothing covers.
    pub unreached: u32,
    /// The words that are covered twice or more.
    pub shared: u32,
    /// The words of which two that cover them differ.
    pub overlap: u32,
    /// The words of kind `Slack` or `Unreached` that are not zero, and the last words of lists of numbers of which a
    /// bit behind the last element is 1.
    pub hidden: u32,
    /// The words that canonical bytes leave out of the object to which they belong.
    pub cut: u32,
}

impl Counts {
    /// Returns the counts of no words.
    pub(crate) fn none() -> Counts
        ensures { result ≡ none }
    {
        Counts {
            words: 0,
            pointer: 0,
            null: 0,
            pad: 0,
            tag: 0,
            data: 0,
            list: 0,
            slack: 0,
            unreached: 0,
            shared: 0,
            overlap: 0,
            hidden: 0,
            cut: 0,
        }
    }
}
