//! The misfits, which are the reasons why a value fits into no message.

use std::error::Error;
use std::fmt;

/// The reason why a value fits into no message. (Our own.) If a value has several misfits, the one that comes first
/// among these variants is reported, wherever in the value the misfits lie.
#[derive(Clone, Copy, Debug, PartialEq, Eq)]
pub enum Misfit {
    /// A struct has more than 65,535 data words or slots.
    Wide,
    /// A list has more than 2^29 - 1 elements, or its rows together have more than 2^29 - 1 data words and slots.
    Long,
    /// Two rows of one list differ in their number of data words or of slots.
    Ragged,
    /// The cost is above 2^28 words by the plain tariff.
    Costly,
    /// The height is above 256.
    Tall,
    /// The root is a capability.
    BadRoot,
}

impl fmt::Display for Misfit {
    ghost use Rattle.std.specs.Prelude.{Some};
    ghost use Rattle.capn_value.specs.Display.{misfit_name};

    ghost output = { λ fault. Some (misfit_name fault) };

    fn fmt<W: fmt::Write>(&self, f: &mut fmt::Formatter<W>) -> fmt::Result {
        match self {
            Misfit::Wide => f.write_str("Wide"),
            Misfit::Long => f.write_str("Long"),
            Misfit::Ragged => f.write_str("Ragged"),
            Misfit::Costly => f.write_str("Costly"),
            Misfit::Tall => f.write_str("Tall"),
            Misfit::BadRoot => f.write_str("BadRoot"),
        }
    }
}

impl Error for Misfit {}
