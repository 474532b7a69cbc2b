// What an instrument is, in words.
use crate::cell::Value;
use market::Definition;
use std::fmt;
use wire_words::{OrDash, Symbol, price};

/// A definition, or a dash where there is none.
#[derive(Clone, Copy)]
pub struct DefinitionCell(pub Option<Definition>);

impl fmt::Display for DefinitionCell {
    fn fmt<W: fmt::Write>(&self, f: &mut fmt::Formatter<W>) -> fmt::Result {
        OrDash(self.0.map(Value)).fmt(f)
    }
}

impl fmt::Display for Value<Definition> {
    fn fmt<W: fmt::Write>(&self, f: &mut fmt::Formatter<W>) -> fmt::Result {
        let definition = self.0;
        write!(
            f,
            "{} flags {}, expiration {}, size {}, {}, increment {}, contract date {}, {}",
            Symbol(&definition.report_symbol),
            definition.flags,
            definition.expiration,
            definition.contract_size,
            definition.listing,
            price(definition.increment),
            definition.contract_date,
            StructureCell(definition),
        )
    }
}

/// A future, alone or on variance, or a spread with its legs.
#[derive(Clone, Copy)]
struct StructureCell(Definition);

impl fmt::Display for StructureCell {
    fn fmt<W: fmt::Write>(&self, f: &mut fmt::Formatter<W>) -> fmt::Result {
        let definition = self.0;
        if definition.flags & 1 == 1 {
            return f.write_str("variance future");
        }
        let count = definition.leg_count();
        if count == 0 {
            return f.write_str("outright");
        }
        write!(f, "spread of {count} legs")?;
        for leg in definition.legs.iter().flatten() {
            write!(f, " {} {}", leg.ratio, Symbol(&leg.symbol))?;
        }
        Ok(())
    }
}
