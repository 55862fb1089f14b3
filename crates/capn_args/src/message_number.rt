//! The value of `--number`, read as the number of a message.

ghost use Rattle.std.specs.Prelude.{◌≡◌};
ghost use Rattle.capn_args.specs.MessageNumber as spec;

use crate::path::with_digit;

/// Returns the number in `text`, which is from 1 to 2^64 - 1, in digits without a sign or leading zeros. Any other text
/// gives `None`.
pub(crate) fn message_number(text: &str) -> Option<u64>
    ensures { result ≡ spec.number_of text.now }
{
    let mut begun: Option<u64> = None;
    let mut rest = text.as_bytes();
    while let [c, after @ ..] = rest {
        let number = with_digit(begun, *c)?;
        if number == 0 {
            return None;
        }
        begun = Some(number);
        rest = after;
    }
    begun
}
