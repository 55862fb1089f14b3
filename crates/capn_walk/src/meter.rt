//! The meter from which the steps of views are paid.

ghost use Rattle.std.specs.Prelude.{◌≡◌, ◌+◌, ◌≤◌};
ghost use Rattle.capn_value.specs.Cost.{most_cost};
ghost use Rattle.capn_value.specs.declared.tariff.Tariff.TheVariants as tariffs;
ghost use Rattle.capn_walk.specs.Account.{with_paid, left_of};

use capn_value::Tariff;
use std::marker::Model;

/// The budget that the steps of views share: the number of words paid so far, the number of words left, and the tariff
/// by which steps are priced.
#[derive(Debug, Drop)]
pub struct Meter {
    paid: u32,
    left: u32,
    tariff: Tariff,
}

impl Model for Meter {
    ghost use Rattle.std.specs.Prelude.{◌+◌, ◌≤◌};
    ghost use Rattle.capn_value.specs.Cost.{most_cost};
    ghost use Rattle.capn_walk.specs.Account.{Account};

    ghost Value = { Account };

    ghost view = { λ m. record { budget = m.paid + m.left; paid = m.paid; tariff = m.tariff } };

    ghost invariant = { λ m. m.paid + m.left ≤ most_cost };
}

impl Meter {
    /// Returns a meter that has paid nothing of a `budget` of at most 2^28 words, with the strict prices.
    pub fn new(budget: u32) -> Meter
        requires { budget ≤ most_cost }
        ensures budget { result.budget ≡ budget }
        ensures paid { result.paid ≡ 0 }
        ensures tariff { result.tariff ≡ tariffs.Strict }
    {
        Meter::with_tariff(budget, Tariff::Strict)
    }

    /// Returns a meter that has paid nothing of a `budget` of at most 2^28 words, with the prices of `tariff`.
    pub fn with_tariff(budget: u32, tariff: Tariff) -> Meter
        requires { budget ≤ most_cost }
        ensures budget { result.budget ≡ budget }
        ensures paid { result.paid ≡ 0 }
        ensures tariff { result.tariff ≡ tariff }
    {
        Meter {
            paid: 0,
            left: budget,
            tariff,
        }
    }

    /// Returns the tariff by which steps are priced.
    #[inline(always)]
    pub fn tariff(&self) -> Tariff
        ensures { result ≡ self.now.tariff }
    {
        self.tariff
    }

    /// Returns the number of words paid.
    pub fn paid(&self) -> u32
        ensures value { result ≡ self.now.paid }
        ensures within { result ≤ self.now.budget }
    {
        self.paid
    }

    /// Returns the number of words that may still be paid.
    #[inline(always)]
    pub fn left(&self) -> u32
        ensures sum { self.now.paid + result ≡ self.now.budget }
        ensures value { result ≡ left_of self.now }
        ensures within { result ≤ most_cost }
    {
        self.left
    }

    /// Pays `price`, which is at most the number of words left.
    #[inline(always)]
    pub(crate) fn pay(&mut self, price: u32)
        requires { price ≤ left_of self.old }
        ensures { self.new ≡ with_paid self.old price }
    {
        self.paid += price;
        self.left -= price;
    }
}
