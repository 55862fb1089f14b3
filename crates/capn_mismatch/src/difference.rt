//! The first difference between two messages of one segment.

ghost use Rattle.std.specs.Prelude.{◌≡◌, [], ◌∷◌};
ghost use Rattle.capn_words.specs.Message.{segment_at, IsMessage};
ghost use Rattle.capn_mismatch.specs.inner.Difference.{IsDifference};

use capn_target::segment_length;
use capn_words::{Bare, Place, Space};

/// The first difference between the words of a message and the words of `other`, as [`first_difference`] finds it. The
/// first word has the number 0.
#[derive(Clone, Copy, Debug, PartialEq, Eq)]
pub enum Difference {
    /// The words are equal, and there are equally many.
    None,
    /// A word differs. All words before it are equal.
    Word {
        /// The number of the word.
        word: u32,
        /// The value of the word in the message.
        is: u64,
        /// The value of the word in `other`.
        other: u64,
    },
    /// The message begins with all words of `other`, and has further words.
    After {
        /// The number of the first further word.
        word: u32,
        /// The value of that word.
        is: u64,
    },
    /// The words of `other` begin with all words of the message, and `other` has further words.
    Short {
        /// The number of the first further word.
        word: u32,
        /// The value of that word.
        other: u64,
    },
}

/// Finds the first difference between the words in the first segment of `space` and the words of `other`.
pub fn first_difference<S: Space>(space: &S, other: &Bare<'_>) -> Difference
    requires message { IsMessage (S.message space.now) }
    requires other { IsMessage (other.now ∷ []) }
    ensures { IsDifference (segment_at (S.message space.now) 0) other.now result }
{
    let size = segment_length(space, 0);
    let other_size = segment_length(other, 0);
    let common = size.min(other_size);
    for word in 0..common {
        let at = Place { segment: 0, word };
        let is = space.word(at);
        let wanted = other.word(at);
        if is != wanted {
            return Difference::Word {
                word,
                is,
                other: wanted,
            };
        }
    }
    let end = Place {
        segment: 0,
        word: common,
    };
    if common < size {
        return Difference::After {
            word: common,
            is: space.word(end),
        };
    }
    if common < other_size {
        return Difference::Short {
            word: common,
            other: other.word(end),
        };
    }
    Difference::None
}
