//! The limits and the form of a call, which C passes as numbers.

ghost use Rattle.std.specs.Prelude.{◌≡◌, ◌↔◌, ◌⊎◌, IsSome, IfSome, IfOk, IfErr};
ghost use Rattle.capn_abi.specs.Calls.{IsForm, form_named, IsTariff, tariff_named, GiveLimits, bounds_of};
ghost use Rattle.capn_abi.specs.Calls.{IsFlat};

use crate::status_codes::{BAD_LIMITS, BAD_TARIFF};
use capn_canon::Form;
use capn_value::Tariff;
use capn_walk::Limits;

/// The limits of a call. The caller may pass any numbers. The status says whether a number is out of its range.
#[derive(Clone, Copy)]
#[repr(C)]
pub struct CapnLimits {
    /// The greatest number of words of one framed message, from 1 to 2^28.
    pub message_words: u32,
    /// The greatest number of words that a walk may pay, at most 2^28.
    pub budget: u32,
    /// The greatest depth of objects, from 1 to 256.
    pub depth: u32,
    /// The number of the tariff, which sets the price of a visit. Under tariff 0, each struct or list costs 1 in
    /// addition to its size. Under tariff 1, each struct or list costs only its size.
    pub tariff: u32,
}

/// Returns the tariff with the given `number`, or `None` if no tariff has that number.
fn tariff_of(number: u32) -> Option<Tariff>
    ensures some { IsSome result ↔ IsTariff number }
    ensures value { IfSome result (λ t. t ≡ tariff_named number) }
{
    match number {
        0 => Some(Tariff::Strict),
        1 => Some(Tariff::Plain),
        _ => None,
    }
}

/// Returns the form with the given `number`, or `None` if no form has that number.
pub fn form_of(number: u32) -> Option<Form>
    ensures some { IsSome result ↔ IsForm number }
    ensures value { IfSome result (λ f. f ≡ form_named number) }
{
    match number {
        0 => Some(Form::Stream),
        1 => Some(Form::Packed),
        2 => Some(Form::Bare),
        _ => None,
    }
}

/// Returns the form with the given `number`, or `None` if that form is packed or no form has that number.
pub fn flat_form_of(number: u32) -> Option<Form>
    ensures some { IsSome result ↔ IsFlat number }
    ensures value { IfSome result (λ f. f ≡ form_named number) }
    ensures flat { IfSome result (λ f. (f ≡ Form.Stream) ⊎ (f ≡ Form.Bare)) }
{
    match number {
        0 => Some(Form::Stream),
        2 => Some(Form::Bare),
        _ => None,
    }
}

/// Returns the limits in `limits`, `BAD_LIMITS` if a limit is out of its range, or `BAD_TARIFF` if only the tariff is.
pub fn limits_of(limits: &CapnLimits) -> Result<Limits, u32>
    ensures value { IfOk result (λ l. l ≡ bounds_of limits.now) }
    ensures ok { IfOk result (λ l. GiveLimits limits.now × IsTariff limits.now.tariff) }
    ensures bad { IfErr result (λ s. ((s ≡ 3) × (GiveLimits limits.now → ⊥))
        ⊎ ((s ≡ 4) × GiveLimits limits.now × (IsTariff limits.now.tariff → ⊥))) }
{
    let Some(strict) = Limits::new(limits.message_words, limits.budget, limits.depth) else {
        return Err(BAD_LIMITS);
    };
    let Some(tariff) = tariff_of(limits.tariff) else {
        return Err(BAD_TARIFF);
    };
    Ok(strict.with_tariff(tariff))
}
