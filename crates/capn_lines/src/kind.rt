//! The kinds of words.

ghost use Rattle.std.specs.Prelude.{◌≡◌};
ghost use Rattle.capn_lines.specs.Kinds as spec;

use capn_cover::Role;

/// The kind of a word of a message.
#[derive(Clone, Copy, Debug, PartialEq, Eq)]
pub enum Kind {
    /// A slot that is not zero.
    Pointer,
    /// A slot that is zero.
    Null,
    /// A word of a landing pad.
    Pad,
    /// The tag word of a list of structs.
    Tag,
    /// A data word of a struct, or of a struct in a list.
    Data,
    /// A word of the elements of a list of bits, bytes, pairs, quads or octs.
    List,
    /// A word behind the structs of a list of structs, which the list's pointer still counts.
    Slack,
    /// A word that nothing covers.
    Unreached,
}

/// Returns the kind of the word `word`, which has this `role` in the object to which it belongs.
pub fn kind_of(word: u64, role: Role) -> Kind
    ensures { result ≡ spec.kind_in word role }
{
    match role {
        Role::Root => slot_kind(word),
        Role::Pad => Kind::Pad,
        Role::Tag => Kind::Tag,
        Role::Data => Kind::Data,
        Role::Slot => slot_kind(word),
        Role::Numbers => Kind::List,
        Role::Slack => Kind::Slack,
        Role::Unreached => Kind::Unreached,
    }
}

/// Returns the kind of a slot with the word `word`.
fn slot_kind(word: u64) -> Kind
    ensures { result ≡ spec.slot_kind word }
{
    if word == 0 { Kind::Null } else { Kind::Pointer }
}

/// Tests whether a word of the kind `kind` and a word of the kind `next` may stand in one line.
pub fn may_join(kind: Kind, next: Kind) -> bool
    ensures { result ≡ spec.may_join kind next }
{
    match kind {
        Kind::Null => matches!(next, Kind::Null),
        Kind::Data => matches!(next, Kind::Data),
        Kind::List => matches!(next, Kind::List),
        Kind::Slack => matches!(next, Kind::Slack),
        Kind::Unreached => matches!(next, Kind::Unreached),
        Kind::Pointer | Kind::Pad | Kind::Tag => false,
    }
}

/// Tests whether `kind` and `other` are the same.
pub fn is_kind(kind: Kind, other: Kind) -> bool
    ensures { result ≡ spec.is_kind kind other }
{
    code_of(kind) == code_of(other)
}

/// Returns a number for each kind.
fn code_of(kind: Kind) -> u8
    ensures { result ≡ spec.code_of kind }
{
    match kind {
        Kind::Pointer => 0,
        Kind::Null => 1,
        Kind::Pad => 2,
        Kind::Tag => 3,
        Kind::Data => 4,
        Kind::List => 5,
        Kind::Slack => 6,
        Kind::Unreached => 7,
    }
}
