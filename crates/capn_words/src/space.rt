//! A message as a list of segments whose words are read in place.

ghost use Rattle.std.specs.Prelude.{◌≡◌, ℕ, ◌<◌, ◌≤◌, List, length};
ghost use Rattle.capn_words.specs.Message.{IsMessage, IsPlace, IsRange, bytes_at, word_at, words_of};

/// The position of a word in a message: the number of the segment, and the index of the word in the segment, both from
/// 0.
///
/// A place is in range of a message if the segment exists and the index is below the segment's length.
#[derive(Clone, Copy, Debug, PartialEq, Eq, PartialOrd, Ord, Hash)]
pub struct Place {
    /// The number of the segment.
    pub segment: u32,
    /// The index of the word in its segment.
    pub word: u32,
}

impl Place {
    /// The place of the root pointer: the first word of the first segment. (Page: messages.)
    pub const ROOT: Place = Place {
        segment: 0,
        word: 0,
    };
}

/// A message whose words and bytes can be read in place. No call takes memory. (Page: messages.)
///
/// A function over any `Space` calls `segments` if its proof needs the bounds of the message. The prover then knows the
/// bounds for every later call on the same value.
pub trait Space {
    /// The segments of the message, each as the list of its words.
    ghost message: { Self → List (List ℕ) };

    /// Returns the number of segments: 1 to 4,096, with at most 2^28 + 1 words in all.
    fn segments(&self) -> u32
        ensures count { result ≡ length (message self.now) }
        ensures bounds { IsMessage (message self.now) };

    /// Returns the number of words of `segment`, or `None` exactly if there is no such segment.
    fn words(&self, segment: u32) -> Option<u32>
        ensures { result ≡ words_of (message self.now) segment };

    /// Returns the word at `at`, which has to be in range.
    fn word(&self, at: Place) -> u64
        requires { IsPlace (message self.now) at }
        ensures { result ≡ word_at (message self.now) at };

    /// Returns the `len` bytes from the start of the word at `at` on. The bytes of a word are in the order from the
    /// least significant to the most significant.
    ///
    /// The segment has to exist, and the bytes have to stay within it. `at` may be the end of the segment.
    fn bytes(&self, at: Place, len: usize) -> &[u8]
        requires { IsRange (message self.now) at len }
        ensures { result.now ≡ bytes_at (message self.now) at len };
}
