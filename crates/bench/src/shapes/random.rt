//! `Random`: pseudo-random words for the contents of messages.

ghost use Rattle.std.specs.Prelude.{◌<◌};

/// The kind of words that are not pointers.
#[derive(Clone, Copy)]
pub(crate) enum Content {
    /// Zero words.
    Zeros,
    /// Numbers of one to eight bytes, none of them zero.
    Numbers,
    /// Numbers, three in ten of them zero.
    Fields,
    /// Numbers, eleven in twelve of them zero.
    Sparse,
    /// Letters.
    Letters,
    /// Random bits.
    Noise,
}

/// A generator of pseudo-random numbers, by shifts and exclusive ors. Each run gives the same numbers.
#[derive(Drop)]
pub(crate) struct Random {
    state: u64,
}

impl Random {
    /// Returns the generator in its first state.
    pub(crate) fn new() -> Random {
        Random {
            state: 88_172_645_463_325_252,
        }
    }

    /// Returns a random word.
    fn next(&mut self) -> u64 {
        self.state ^= self.state << 13;
        self.state ^= self.state >> 7;
        self.state ^= self.state << 17;
        self.state
    }

    /// Returns a random number below `bound`.
    pub(crate) fn below(&mut self, bound: u32) -> u32
        requires { 0 < bound }
        ensures { result < bound }
    {
        (self.next() >> 32) as u32 % bound
    }

    /// Returns a random number of one to eight bytes that is not zero.
    fn number(&mut self) -> u64 {
        let bytes = match self.below(6) {
            0 => 8,
            1 => 4,
            2 => 3,
            3 => 2,
            _ => 1,
        };
        self.next() >> (64 - 8 * bytes) | 1
    }

    /// Returns a word of the kind `content`.
    pub(crate) fn word(&mut self, content: Content) -> u64 {
        match content {
            Content::Zeros => 0,
            Content::Numbers => self.number(),
            Content::Fields => { if self.below(10) < 3 { 0 } else { self.number() } }
            Content::Sparse => { if self.below(12) > 0 { 0 } else { self.number() } }
            Content::Letters => self.next() & 0x1f1f_1f1f_1f1f_1f1f | 0x6060_6060_6060_6060,
            Content::Noise => self.next(),
        }
    }
}
