//! The results of the check whether a bare message is canonical.

/// The survey of a message, and whether its bytes are canonical.
#[derive(Clone, Copy, Debug, PartialEq, Eq)]
pub struct SurveyedBare {
    /// The number of words paid, at most the budget.
    pub paid: u32,
    /// The number of visits.
    pub visits: u32,
    /// The index of the first capability in preorder. A value with a capability has no canonical bytes.
    pub capability: Option<u32>,
    /// `true` if the value has no capability and the bytes are its canonical bytes.
    pub is_canonical: bool,
}

/// The survey of a message, with its depth.
#[derive(Clone, Copy, Debug, PartialEq, Eq)]
pub struct MeasuredBare {
    /// The survey: the price, the visits, the first capability, and whether the bytes are canonical.
    pub survey: SurveyedBare,
    /// The least limit on depth under which the message is accepted, with the other limits unchanged.
    pub depth: u32,
}
