//! The last comparison that a visit has made of its object with an earlier object. It also holds of the next word that
//! the earlier object covers.

ghost use Rattle.std.specs.Prelude.{◌≡◌, ℕ, List};
ghost use Rattle.capn_words.specs.Message.{IsMessage};
ghost use Rattle.capn_cover.specs.Parts as spec;
ghost use Rattle.capn_cover.specs.Numbers.{CountsBefore};
ghost use Rattle.capn_cover.specs.inner.Knows.{Knows};

use crate::covered::Role;
use crate::part::differs;
use capn_words::Space;

/// The comparison of a visit with an earlier visit, which tells whether the two cover words by two parts that differ.
#[derive(Clone, Copy)]
pub struct Comparison {
    /// The number of the slot of the earlier visit.
    pub slot: u32,
    /// The role of a word in the earlier visit.
    pub role: Role,
    /// Set if the two parts differ.
    pub differs: bool,
}

impl Comparison {
    /// Returns the comparison of the visit of the slot with the number `slot`, which covers words in the given `role`,
    /// with itself.
    #[inline(always)]
    pub fn of_itself(slot: u32, role: Role) -> Comparison
        ensures { (message : List (List ℕ)) → Knows message slot role result }
    {
        Comparison {
            slot,
            role,
            differs: false,
        }
    }
}

/// Tests whether the visits of the slots with the numbers `other` and `slot` cover a word in the given roles by two
/// parts that differ. `known` is the last comparison of the visit of `slot`. The parts aren't compared again if `known`
/// is of the same object. Element `s` of `before` is the number of words before segment `s`.
#[inline(always)]
pub fn differs_from<S: Space>(
    space: &S,
    before: &[u32],
    known: &mut Comparison,
    other: u32,
    another: Role,
    slot: u32,
    role: Role,
) -> bool
    requires message { IsMessage (S.message space.now) }
    requires counts { CountsBefore (S.message space.now) before.now }
    requires known { Knows (S.message space.now) slot role known.old }
    ensures differs { result ≡ spec.differs (S.message space.now) other another slot role }
    ensures known { Knows (S.message space.now) slot role known.new }
{
    if known.slot == other && known.role.is_of_object() && another.is_of_object() {
        return known.differs;
    }
    let differs = differs(space, before, other, another, slot, role);
    *known = Comparison {
        slot: other,
        role: another,
        differs,
    };
    differs
}
