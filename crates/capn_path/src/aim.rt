//! The aim of a search among the visits of a walk.

ghost use Rattle.std.specs.Prelude.{◌≡◌, IfNone, Option as Options, Result as Results};
ghost use Rattle.capn_words.specs.declared.space.Place.{Place as Places};
ghost use Rattle.capn_target.specs.declared.target.Target.{Target as Targets};
ghost use Rattle.capn_target.specs.declared.target.Fault.{Fault as Faults};

use capn_target::{Fault, Target};
use capn_words::Place;

/// The aim of a search: a test of the slots that a walk visits. The slots are tested in preorder, up to the first find.
pub trait Aim: Drop {
    /// The type of a find.
    type Found: Drop;

    /// The find at a slot, or `None`, given the slot's place and the target or the fault of the slot's pointer.
    ghost finds: { Self → Places → Results Targets Faults → Options Self.Found };

    /// The aim after a slot at which nothing was found.
    ghost next: { Self → Self };

    /// Tests the slot at `at`, whose pointer has the target or the fault `named`. Returns the find at that slot, or
    /// `None` if nothing is found.
    fn test(&mut self, at: Place, named: Result<Target, Fault>) -> Option<Self::Found>
        ensures found { result ≡ finds self.old at named }
        ensures next { IfNone result (self.new ≡ next self.old) };
}
