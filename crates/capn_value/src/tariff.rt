//! The tariffs, which set what each content of a message costs in addition to its size.

ghost use Rattle.std.specs.Prelude.{◌≡◌, ◌≤◌};
ghost use Rattle.capn_value.specs.Cost as sizes;

/// The rule for the price of a visit: what content costs in addition to its size and its landing pads. The size is the
/// number of words, plus one for each element without size. (Our own, after the page's security considerations.)
#[derive(Clone, Copy, Debug, PartialEq, Eq)]
pub enum Tariff {
    /// Each content costs 1 in addition to its size.
    Strict,
    /// Each content costs only its size.
    Plain,
}

impl Tariff {
    /// Returns the cost of each content in addition to its size, in words.
    #[inline(always)]
    pub fn base(self) -> u32
        ensures value { result ≡ sizes.base self }
        ensures small { result ≤ 1 }
    {
        match self {
            Tariff::Strict => 1,
            Tariff::Plain => 0,
        }
    }
}
