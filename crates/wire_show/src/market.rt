// Quotes, trades and what else tells of one symbol's market, in words.
use crate::message::Shown;
use std::fmt;
use wire_types::{
    LastTrade, PriceLimits, Settlement, SingleSideUpdate, Snapshot, TopTrade, TradingStatus,
    TwoSideUpdate,
};
use wire_words::{ShownQuote, Symbol, price};

impl fmt::Display for Shown<TradingStatus<'_>> {
    fn fmt<W: fmt::Write>(&self, f: &mut fmt::Formatter<W>) -> fmt::Result {
        let m = self.0;
        write!(
            f,
            "Trading Status, time offset {}, symbol {}, status {}",
            m.time_offset,
            Symbol(m.symbol),
            m.status,
        )
    }
}

impl fmt::Display for Shown<Snapshot<'_>> {
    fn fmt<W: fmt::Write>(&self, f: &mut fmt::Formatter<W>) -> fmt::Result {
        let m = self.0;
        write!(
            f,
            "Market Snapshot, time offset {}, symbol {}, unit timestamp {}, bid {}, ask {}",
            m.time_offset,
            Symbol(m.symbol),
            m.unit_timestamp,
            ShownQuote(m.bid),
            ShownQuote(m.ask),
        )?;
        write!(
            f,
            ", last trade {}, volume {}, status {}",
            Shown(m.last),
            m.volume,
            m.status,
        )
    }
}

impl fmt::Display for Shown<LastTrade> {
    fn fmt<W: fmt::Write>(&self, f: &mut fmt::Formatter<W>) -> fmt::Result {
        let last = self.0;
        if last.size == 0 {
            return f.write_str("none");
        }
        write!(
            f,
            "{} for {} {}",
            price(last.price),
            last.size,
            last.condition,
        )
    }
}

impl fmt::Display for Shown<SingleSideUpdate<'_>> {
    fn fmt<W: fmt::Write>(&self, f: &mut fmt::Formatter<W>) -> fmt::Result {
        let m = self.0;
        write!(
            f,
            "Single Side Update, time offset {}, symbol {}, {} {}",
            m.time_offset,
            Symbol(m.symbol),
            m.side,
            ShownQuote(m.quote),
        )
    }
}

impl fmt::Display for Shown<TwoSideUpdate<'_>> {
    fn fmt<W: fmt::Write>(&self, f: &mut fmt::Formatter<W>) -> fmt::Result {
        let m = self.0;
        write!(
            f,
            "Two Side Update, time offset {}, symbol {}, bid {}, ask {}",
            m.time_offset,
            Symbol(m.symbol),
            ShownQuote(m.bid),
            ShownQuote(m.ask),
        )
    }
}

impl fmt::Display for Shown<TopTrade<'_>> {
    fn fmt<W: fmt::Write>(&self, f: &mut fmt::Formatter<W>) -> fmt::Result {
        let m = self.0;
        write!(
            f,
            "TOP Trade, time offset {}, symbol {}, quantity {}, price {}, execution id {}, volume {}, condition {}",
            m.time_offset,
            Symbol(m.symbol),
            m.quantity,
            price(m.price),
            m.execution_id,
            m.volume,
            m.condition,
        )
    }
}

impl fmt::Display for Shown<Settlement<'_>> {
    fn fmt<W: fmt::Write>(&self, f: &mut fmt::Formatter<W>) -> fmt::Result {
        let m = self.0;
        write!(
            f,
            "Settlement, time offset {}, symbol {}, trade date {}, price {}, issue {}",
            m.time_offset,
            Symbol(m.symbol),
            m.trade_date,
            price(m.price),
            m.issue,
        )
    }
}

impl fmt::Display for Shown<PriceLimits<'_>> {
    fn fmt<W: fmt::Write>(&self, f: &mut fmt::Formatter<W>) -> fmt::Result {
        let m = self.0;
        write!(
            f,
            "Price Limits, time offset {}, symbol {}, upper {}, lower {}",
            m.time_offset,
            Symbol(m.symbol),
            price(m.upper),
            price(m.lower),
        )
    }
}
