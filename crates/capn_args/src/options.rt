//! The option of the parser for a row of the table.

ghost use Rattle.std.specs.Prelude.{◌≡◌, false};
ghost use Rattle.clap.specs.Words.{rule_of};
ghost use Rattle.capn_args.specs.inner.Rows.{rule_of_row};

use crate::option_row::{OptionRow, Taken};
use clap::builder::ValueParser;
use clap::{Arg, ArgAction};
use std::alloc::Global;

/// Returns the parser's option for `row`.
pub(crate) fn option_of<'a>(alloc: Global, row: &OptionRow) -> Arg<'a>
    ensures rule { rule_of result ≡ rule_of_row row.now }
    ensures local { result.global ≡ false }
{
    let option = Arg::new(alloc, row.name).long(row.name).help(row.help);
    match row.taken {
        Taken::Flag => option.action(ArgAction::SetTrue),
        Taken::Asked(value) => option.value_name(value),
        Taken::Usual(value, usual) => option.value_name(value).default_value(usual),
        Taken::Number(usual, least, most) => option
            .value_name("N")
            .default_value(usual)
            .value_parser(ValueParser::signed(least, most)),
        Taken::Place(usual) => option
            .value_name("N")
            .default_value(usual)
            .value_parser(ValueParser::unsigned(1, u64::MAX)),
    }
}
