// A row as a line.
ghost use Rattle.row_lines.specs.Rows.{row_line};
ghost use Rattle.std.specs.Prelude.{Some};

use crate::hex::HexSymbol;
use crate::instrument::DefinitionPart;
use crate::part::{LimitsPart, SettlementPart};
use crate::quotes::QuotesPart;
use market::Row;
use std::fmt;
use wire_words::OrDash;

/// All that a row holds: prices in ten-thousandths, codes by their letters, symbols in hex.
#[derive(Clone, Copy)]
pub struct RowLine<'a>(pub &'a Row);

impl fmt::Display for RowLine<'_> {
    ghost output = { λ x. Some (row_line x.0.now) };

    fn fmt<W: fmt::Write>(&self, f: &mut fmt::Formatter<W>) -> fmt::Result {
        let row = self.0;
        write!(
            f,
            "row {} {} settlement {} limits {} definition {}",
            HexSymbol(row.symbol),
            QuotesPart(row.quotes),
            OrDash(row.settlement.map(SettlementPart)),
            OrDash(row.limits.map(LimitsPart)),
            OrDash(row.definition.map(DefinitionPart)),
        )
    }
}
