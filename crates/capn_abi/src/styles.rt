//! The styles of a message's text, which C passes as numbers.

ghost use Rattle.std.specs.Prelude.{◌≡◌, ◌↔◌, IsSome, IfSome};
ghost use Rattle.capn_abi.specs.Styles.{IsStyle, style_named};

use capn_show::Style;

/// Returns the style with the given `number`, or `None` if no style has that number.
pub fn style_of(number: u32) -> Option<Style>
    ensures some { IsSome result ↔ IsStyle number }
    ensures value { IfSome result (λ s. s ≡ style_named number) }
{
    match number {
        0 => Some(Style::Lines),
        1 => Some(Style::Quoted),
        2 => Some(Style::Json),
        3 => Some(Style::JsonText),
        _ => None,
    }
}
