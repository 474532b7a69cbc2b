// The settlement and the limits as parts of a row's line.
ghost use Rattle.row_lines.specs.Parts.{settlement_part, limits_part};
ghost use Rattle.std.specs.Prelude.{Some};

use crate::code::CodeLetter;
use market::{Limits, Settlement};
use std::fmt;

#[derive(Clone, Copy)]
pub(crate) struct SettlementPart(pub(crate) Settlement);

impl fmt::Display for SettlementPart {
    ghost output = { λ x. Some (settlement_part (Some x.0)) };

    fn fmt<W: fmt::Write>(&self, f: &mut fmt::Formatter<W>) -> fmt::Result {
        let Settlement {
            trade_date,
            price,
            issue,
        } = self.0;
        write!(f, "{trade_date} {price} {}", CodeLetter(issue))
    }
}

#[derive(Clone, Copy)]
pub(crate) struct LimitsPart(pub(crate) Limits);

impl fmt::Display for LimitsPart {
    ghost output = { λ x. Some (limits_part (Some x.0)) };

    fn fmt<W: fmt::Write>(&self, f: &mut fmt::Formatter<W>) -> fmt::Result {
        let Limits { upper, lower } = self.0;
        write!(f, "{lower} {upper}")
    }
}
