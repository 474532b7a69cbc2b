// Futures Instrument Definition in words.
use crate::message::Shown;
use std::fmt::{self, Display};
use wire_types::{Definition, Legs, Structure, Variance};
use wire_words::{Decimal, Symbol, price};

impl Display for Shown<Definition<'_>> {
    fn fmt<W: fmt::Write>(&self, f: &mut fmt::Formatter<W>) -> fmt::Result {
        let m = self.0;
        write!(
            f,
            "Futures Instrument Definition, time offset {}, symbol {}, unit timestamp {}, report symbol {}",
            m.time_offset,
            Symbol(m.symbol),
            m.unit_timestamp,
            Symbol(m.report_symbol),
        )?;
        write!(
            f,
            ", flags {}, expiration {}, contract size {}, listing {}, increment {}, contract date {}, {}",
            m.flags,
            m.expiration,
            m.contract_size,
            m.listing,
            price(m.increment),
            m.contract_date,
            Shown(m.structure),
        )
    }
}

impl Display for Shown<Structure<'_>> {
    fn fmt<W: fmt::Write>(&self, f: &mut fmt::Formatter<W>) -> fmt::Result {
        match self.0 {
            Structure::Outright => f.write_str("outright"),
            Structure::Spread(legs) => Shown(legs).fmt(f),
            Structure::Variance(variance) => Shown(variance).fmt(f),
        }
    }
}

impl Display for Shown<Legs<'_>> {
    fn fmt<W: fmt::Write>(&self, f: &mut fmt::Formatter<W>) -> fmt::Result {
        let legs = self.0;
        write!(f, "spread of {} legs", legs.count())?;
        for leg in legs {
            write!(f, " {} {}", leg.ratio, Symbol(&leg.symbol))?;
        }
        Ok(())
    }
}

impl Display for Shown<Variance> {
    fn fmt<W: fmt::Write>(&self, f: &mut fmt::Formatter<W>) -> fmt::Result {
        let v = self.0;
        write!(
            f,
            "variance future, realized variance {}, expected prices {}, elapsed returns {}",
            Decimal {
                value: v.realized_variance,
                places: 8
            },
            v.expected_prices,
            v.elapsed_returns,
        )?;
        write!(
            f,
            ", previous settlement {}, discount factor {}, initial strike {}",
            price(v.previous_settlement),
            Decimal {
                value: v.discount_factor,
                places: 16
            },
            price(v.initial_strike),
        )?;
        write!(
            f,
            ", previous ARMVM {}, fed funds rate {}",
            Decimal {
                value: v.previous_armvm,
                places: 6
            },
            Decimal {
                value: v.fed_funds_rate,
                places: 6
            },
        )
    }
}
