//! The results of a survey.

/// The number of words that a walk pays, the number of visits, and the first capability that the walk meets.
#[derive(Clone, Copy, Debug, PartialEq, Eq)]
pub struct Surveyed {
    /// The number of words paid: the sum of the prices of all visits.
    pub paid: u32,
    /// The number of visits.
    pub visits: u32,
    /// The index of the first capability in preorder, or `None` if there is no capability.
    pub capability: Option<u32>,
}

/// The result of a survey that also finds the depth of a message.
#[derive(Clone, Copy, Debug, PartialEq, Eq)]
pub struct Measured {
    /// The number of words that the walk pays, the number of visits, and the first capability that the walk meets.
    pub survey: Surveyed,
    /// The least depth limit with which the message is accepted, or 0 if the root is null.
    pub depth: u32,
}
