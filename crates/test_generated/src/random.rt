//! Pseudo-random numbers.

ghost use Rattle.std.specs.Prelude.{◌≡◌, ◌+◌, ◌*◌, ◌%◌, ◌^◌, ◌<◌, ◌≤◌};

/// A source of numbers that depend only on the seed.
#[derive(Drop)]
pub(crate) struct Random {
    state: u64,
}

impl Random {
    /// Returns the source for `seed`.
    pub(crate) fn new(seed: u64) -> Random
        ensures { result.state ≡ (seed * 11_400_714_819_323_198_485 + 1) % 2 ^ 64 }
    {
        Random {
            state: seed.wrapping_mul(0x9e37_79b9_7f4a_7c15).wrapping_add(1),
        }
    }

    pub(crate) fn word(&mut self) -> u64
        ensures { result ≡ self.new.state * 2_685_821_657_736_338_717 % 2 ^ 64 }
    {
        let mut state = self.state;
        state ^= state << 13;
        state ^= state >> 7;
        state ^= state << 17;
        self.state = state;
        state.wrapping_mul(0x2545_f491_4f6c_dd1d)
    }

    /// Returns the next number below `bound`, or 0 if `bound` is 0.
    pub(crate) fn below(&mut self, bound: u64) -> u64
        ensures below { 0 < bound → result < bound }
        ensures within { result ≤ bound }
    {
        let word = self.word() >> 32;
        if bound == 0 { 0 } else { word % bound }
    }
}
