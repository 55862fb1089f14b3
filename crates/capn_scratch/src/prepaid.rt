//! The type `Prepaid`, a message that is lent to one task whose reads were counted before.

ghost use Rattle.std.specs.Prelude.{◌≡◌, ℕ, ◌≤◌, List};

use capn_target::counted::{Asked, CountedTask, CountedWriter};
use capn_words::Space;
use std::marker::Model;

/// A message, and the number of reads that were paid for it. Contracts see the two as a pair.
///
/// The message can only be lent to one task, and only to a task that does at most that number of reads. No call returns
/// the message.
#[derive(Drop)]
pub(crate) struct Prepaid<S: Space + Drop> {
    space: S,
    paid: u64,
}

impl<S: Space + Drop> Model for Prepaid<S> {
    ghost use Rattle.std.specs.Prelude.{ℕ, List};

    ghost Value = { List (List ℕ) × ℕ };

    ghost view = { λ p. (S.message p.space, p.paid) };
}

impl<S: Space + Drop> Prepaid<S> {
    /// Takes the message `space`, for which `paid` reads were counted.
    #[inline(always)]
    pub(crate) fn of(space: S, paid: u64) -> Prepaid<S>
        ensures { result ≡ (S.message space, paid) }
    {
        Prepaid { space, paid }
    }
}

impl<S: Space + Drop> Asked for Prepaid<S> {
    ghost use Rattle.std.specs.Prelude.{◌≤◌};

    ghost message = { λ p. p.0 };

    ghost allows = { λ p n. n ≤ p.1 };

    #[inline(always)]
    fn ask<T: CountedTask>(self, task: T) -> T::Told {
        let Prepaid { space, paid: _ } = self;
        Asked::ask(&space, task)
    }

    #[inline(always)]
    fn ask_into<T: CountedWriter>(self, task: T, out: &mut [T::Item]) -> T::Told {
        let Prepaid { space, paid: _ } = self;
        Asked::ask_into(&space, task, out)
    }
}
