//! One word of a cover, and its role.

ghost use Rattle.std.specs.Prelude.{◌≡◌};
ghost use Rattle.capn_cover.specs.Covers.{is_read, unreached};
ghost use Rattle.capn_cover.specs.inner.Knows.{is_of_object};

/// The role of a word in the object or the landing pad to which the word belongs.
#[derive(Clone, Copy, Debug, PartialEq, Eq)]
pub enum Role {
    /// The root's slot, which is covered by the message itself.
    Root,
    /// A word of a landing pad.
    Pad,
    /// The tag word of a list of structs.
    Tag,
    /// A data word of a struct, or of a struct in a list.
    Data,
    /// A slot of a struct, of a struct in a list, or of a list of pointers.
    Slot,
    /// A word of the elements of a list of bits, bytes, pairs, quads or octs.
    Numbers,
    /// A word behind the structs of a list of structs, which the list's pointer still counts.
    Slack,
    /// A word that nothing covers.
    Unreached,
}

/// One word of a message, by the visits that cover it.
#[derive(Clone, Copy, Debug, PartialEq, Eq)]
pub struct Covered {
    /// The number of times that the word is covered, by all visits together. The message itself covers the root's slot
    /// once more.
    pub times: u32,
    /// The number of the slot whose visit is the first that covers the word: how many words of the message lie before
    /// that slot. For the root's slot, and for a word that nothing covers, 0.
    pub slot: u32,
    /// For a word that is followed as a slot, the number of the slot through whose object the walk first comes to it.
    /// For another slot, the number of the last slot to whose object it belongs as a slot. For the root's slot, and for
    /// a word that no visit covers as a slot, 0.
    pub holder: u32,
    /// The role of the word there.
    pub role: Role,
    /// Set if two that cover the word differ. They don't if both are objects with the same first word and the same
    /// kind, sizes and counts, or both are the same landing pad.
    pub overlap: bool,
    /// Set if the word is followed: a visit of it as a slot covers words, or it is the root's slot.
    pub is_followed: bool,
    /// Set if canonical bytes leave the word out of the object to which it belongs. They leave out the zero words at
    /// the end of a struct's data, and the null slots at its end. Of the structs of a list they leave out those words
    /// and slots that they can leave out of each.
    pub cut: bool,
}

impl Role {
    /// Tests whether a word in this role is covered by neither the message itself nor a landing pad: an object covers
    /// it, or it is unreached.
    #[inline(always)]
    pub(crate) fn is_of_object(self) -> bool
        ensures { result ≡ is_of_object self }
    {
        match self {
            Role::Root => false,
            Role::Pad => false,
            Role::Tag => true,
            Role::Data => true,
            Role::Slot => true,
            Role::Numbers => true,
            Role::Slack => true,
            Role::Unreached => true,
        }
    }

    /// Tests whether a word in this role is read as a slot.
    pub(crate) fn is_read(self) -> bool
        ensures { result ≡ is_read self }
    {
        match self {
            Role::Root => true,
            Role::Slot => true,
            Role::Pad => false,
            Role::Tag => false,
            Role::Data => false,
            Role::Numbers => false,
            Role::Slack => false,
            Role::Unreached => false,
        }
    }
}

impl Covered {
    /// Returns the word that nothing covers.
    pub fn unreached() -> Covered
        ensures { result ≡ unreached }
    {
        Covered {
            times: 0,
            slot: 0,
            holder: 0,
            role: Role::Unreached,
            overlap: false,
            is_followed: false,
            cut: false,
        }
    }
}
