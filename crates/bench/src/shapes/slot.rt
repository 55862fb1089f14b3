//! The place of a word in a draft.

/// The place of a word in a draft.
#[derive(Clone, Copy)]
pub(crate) struct Slot {
    /// The index of the word's segment.
    pub segment: usize,
    /// The number of words before the word, in all segments.
    pub at: usize,
}

impl Slot {
    /// The place of the root pointer.
    pub(crate) const ROOT: Slot = Slot { segment: 0, at: 0 };

    /// Returns the slot that is `words` words further.
    pub(crate) fn after(self, words: u32) -> Slot {
        Slot {
            segment: self.segment,
            at: self.at.saturating_add(words as usize),
        }
    }
}
