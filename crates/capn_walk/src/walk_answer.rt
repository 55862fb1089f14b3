//! The results of a walk: the value, or the place and the reason of the stop.

ghost use Rattle.std.specs.Prelude.{◌≡◌, ◌+◌, ◌<◌, ◌^◌};
ghost use Rattle.capn_target.specs.declared.target.Fault.TheVariants.{Memory};

use capn_target::Fault;
use capn_value::Tree;
use capn_words::Place;
use std::alloc::{Allocator, Global};
use std::error::Error;
use std::fmt;

/// The value that a message denotes, the number of words that the walk paid, and the number of visits.
#[derive(Debug, Drop)]
pub struct Walked<A: Allocator = Global> {
    /// The value at the root.
    pub tree: Tree<A>,
    /// The number of words paid: the sum of the prices of all visits.
    pub paid: u32,
    /// The number of visits: one of the root, and one of a slot for each time that the walk reaches the slot.
    pub visits: u32,
}

/// The stop of a walk: the reason, the place, the number of words paid, and the number of visits.
#[derive(Clone, Copy, Debug, PartialEq, Eq)]
pub struct Stopped {
    /// The reason for the stop.
    pub fault: Fault,
    /// The place of the visited slot, even if the fault is in a landing pad, or 0:0 for `NoRoot`. No contract states
    /// the place if the fault is `Memory`.
    pub place: Place,
    /// The number of words paid for the visits before the refused visit. For `Memory`, only a bound is stated.
    pub paid: u32,
    /// The number of visits, including the refused visit: 0 for `NoRoot`. For `Memory`, only a bound is stated.
    pub visits: u32,
}

impl Stopped {
    /// Returns `self` with `visits` earlier visits added, for which `paid` words were paid.
    pub(crate) fn behind(self, paid: u32, visits: u32) -> Stopped
        requires paid { paid + self.paid < 2 ^ 32 }
        requires visits { visits + self.visits < 2 ^ 32 }
        ensures { result ≡ record self { paid = paid + self.paid; visits = visits + self.visits } }
    {
        Stopped {
            paid: paid + self.paid,
            visits: visits + self.visits,
            ..self
        }
    }
}

impl fmt::Display for Stopped {
    ghost use Rattle.std.specs.Prelude.{Some};
    ghost use Rattle.capn_walk.specs.Display.{stopped_text};

    ghost output = { λ stopped. Some (stopped_text stopped) };

    fn fmt<W: fmt::Write>(&self, f: &mut fmt::Formatter<W>) -> fmt::Result {
        let fault = self.fault;
        let segment = self.place.segment;
        let word = self.place.word;
        let paid = self.paid;
        let visits = self.visits;
        write!(
            f,
            "{fault} at {segment}:{word}, paid {paid}, visits {visits}"
        )
    }
}

impl Error for Stopped {}

/// Returns the stop with `fault` at `place`, with no words paid and one visit.
pub(crate) fn stop(fault: Fault, place: Place) -> Stopped
    ensures { result ≡ record { fault = fault; place = place; paid = 0; visits = 1 } }
{
    Stopped {
        fault,
        place,
        paid: 0,
        visits: 1,
    }
}

/// Returns the stop with the fault `Memory` at `place`, with no words paid and no visit counted.
pub(crate) fn out_of_memory(place: Place) -> Stopped
    ensures { result ≡ record { fault = Memory; place = place; paid = 0; visits = 0 } }
{
    Stopped {
        fault: Fault::Memory,
        place,
        paid: 0,
        visits: 0,
    }
}
