// What an instrument is, as part of a row's line.
ghost use Rattle.std.specs.Prelude.{Some};
ghost use Rattle.row_lines.specs.Instruments.{leg_part, each_leg, terms_part, definition_part};

use crate::code::CodeLetter;
use crate::hex::HexSymbol;
use market::{Definition, Leg};
use std::fmt;

/// A definition with its legs: how many there are, and each of them.
#[derive(Clone, Copy)]
pub(crate) struct DefinitionPart(pub(crate) Definition);

impl fmt::Display for DefinitionPart {
    ghost output = { λ x. Some (definition_part (Some x.0)) };

    fn fmt<W: fmt::Write>(&self, f: &mut fmt::Formatter<W>) -> fmt::Result {
        let definition = self.0;
        write!(
            f,
            "{} {} legs {}{}",
            HexSymbol(definition.report_symbol),
            TermsPart(definition),
            definition.leg_count(),
            LegsPart(definition.legs),
        )
    }
}

/// What a definition says besides the report symbol and the legs.
#[derive(Clone, Copy)]
struct TermsPart(Definition);

impl fmt::Display for TermsPart {
    ghost output = { λ x. Some (terms_part x.0) };

    fn fmt<W: fmt::Write>(&self, f: &mut fmt::Formatter<W>) -> fmt::Result {
        write!(
            f,
            "{} {} {} {} {} {}",
            self.0.flags,
            self.0.expiration,
            self.0.contract_size,
            CodeLetter(self.0.listing),
            self.0.increment,
            self.0.contract_date,
        )
    }
}

/// Each leg.
#[derive(Clone, Copy)]
struct LegsPart([Option<Leg>; 4]);

impl fmt::Display for LegsPart {
    ghost output = { λ x. Some (each_leg x.0) };

    fn fmt<W: fmt::Write>(&self, f: &mut fmt::Formatter<W>) -> fmt::Result {
        for leg in self.0 {
            LegPart(leg).fmt(f)?;
        }
        Ok(())
    }
}

/// A leg with a blank in front, or nothing.
#[derive(Clone, Copy)]
struct LegPart(Option<Leg>);

impl fmt::Display for LegPart {
    ghost output = { λ x. Some (leg_part x.0) };

    fn fmt<W: fmt::Write>(&self, f: &mut fmt::Formatter<W>) -> fmt::Result {
        match self.0 {
            Some(leg) => write!(f, " {} {}", leg.ratio, HexSymbol(leg.symbol)),
            None => f.write_str(""),
        }
    }
}
