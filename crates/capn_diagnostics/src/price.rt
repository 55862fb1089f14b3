//! The price of the visit of a slot.

ghost use Rattle.std.specs.Prelude.{◌≡◌};
ghost use Rattle.capn_words.specs.Message.{IsPlace};
ghost use Rattle.capn_value.specs.Cost.{base};
ghost use Rattle.capn_target.specs.Target.{target};
ghost use Rattle.capn_walk.specs.View.{toll};
ghost use Rattle.capn_diagnostics.specs.Slot as spec;

use capn_target::{Target, resolve};
use capn_value::Tariff;
use capn_walk::price_of;
use capn_words::{Place, Space};

/// Returns the price of a visit whose target is `target`, in words. `base` is the price of an object in addition to its
/// size.
fn toll_of(target: Target, base: u32) -> u64
    ensures { result ≡ toll base target }
{
    match target {
        Target::Content {
            segment: _,
            start: _,
            shape,
            pads,
        } => price_of(shape, pads, base),
        _ => 0,
    }
}

/// Returns the price of the visit of the slot at `at`, in words. The price is 0 if the target of the slot is a fault.
pub(crate) fn asked<S: Space>(space: &S, tariff: Tariff, at: Place) -> u64
    requires { IsPlace (S.message space.now) at }
    ensures { result ≡ spec.asked (base tariff) (target (S.message space.now) at) }
{
    match resolve(space, at) {
        Ok(target) => toll_of(target, tariff.base()),
        Err(_) => 0,
    }
}
