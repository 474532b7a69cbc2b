// Cells of a row: quotes, the last trade, the settlement and the limits. A dash stands where there is none.
ghost use Rattle.std.specs.Prelude.{Some};
ghost use Rattle.wall_words.specs.Cells.{quote_cell, trade_cell, settlement_cell, limits_cell};

use market::{Limits, Settlement};
use std::fmt;
use wire_types::{LastTrade, Quote};
use wire_words::{OrDash, price};

/// What stands in a cell that is not empty.
#[derive(Clone, Copy)]
pub(crate) struct Value<T>(pub(crate) T);

/// A bid or an ask: its price and its quantity.
#[derive(Clone, Copy)]
pub struct QuoteCell(pub Option<Quote>);

impl fmt::Display for QuoteCell {
    ghost output = { λ x. Some (quote_cell x.0) };

    fn fmt<W: fmt::Write>(&self, f: &mut fmt::Formatter<W>) -> fmt::Result {
        OrDash(self.0.map(Value)).fmt(f)
    }
}

impl fmt::Display for Value<Quote> {
    ghost output = { λ x. Some (quote_cell (Some x.0)) };

    fn fmt<W: fmt::Write>(&self, f: &mut fmt::Formatter<W>) -> fmt::Result {
        let quote = self.0;
        write!(f, "{} x {}", price(quote.price), quote.quantity)
    }
}

/// The last trade: its price, its size and how it came about.
#[derive(Clone, Copy)]
pub struct TradeCell(pub Option<LastTrade>);

impl fmt::Display for TradeCell {
    ghost output = { λ x. Some (trade_cell x.0) };

    fn fmt<W: fmt::Write>(&self, f: &mut fmt::Formatter<W>) -> fmt::Result {
        OrDash(self.0.map(Value)).fmt(f)
    }
}

impl fmt::Display for Value<LastTrade> {
    ghost output = { λ x. Some (trade_cell (Some x.0)) };

    fn fmt<W: fmt::Write>(&self, f: &mut fmt::Formatter<W>) -> fmt::Result {
        let trade = self.0;
        write!(
            f,
            "{} x {} {}",
            price(trade.price),
            trade.size,
            trade.condition,
        )
    }
}

/// The settlement: its price, its trade date and how final it is.
#[derive(Clone, Copy)]
pub struct SettlementCell(pub Option<Settlement>);

impl fmt::Display for SettlementCell {
    ghost output = { λ x. Some (settlement_cell x.0) };

    fn fmt<W: fmt::Write>(&self, f: &mut fmt::Formatter<W>) -> fmt::Result {
        OrDash(self.0.map(Value)).fmt(f)
    }
}

impl fmt::Display for Value<Settlement> {
    ghost output = { λ x. Some (settlement_cell (Some x.0)) };

    fn fmt<W: fmt::Write>(&self, f: &mut fmt::Formatter<W>) -> fmt::Result {
        let settlement = self.0;
        write!(
            f,
            "{} {} {}",
            price(settlement.price),
            settlement.trade_date,
            settlement.issue,
        )
    }
}

/// The price limits, the lower one first.
#[derive(Clone, Copy)]
pub struct LimitsCell(pub Option<Limits>);

impl fmt::Display for LimitsCell {
    ghost output = { λ x. Some (limits_cell x.0) };

    fn fmt<W: fmt::Write>(&self, f: &mut fmt::Formatter<W>) -> fmt::Result {
        OrDash(self.0.map(Value)).fmt(f)
    }
}

impl fmt::Display for Value<Limits> {
    ghost output = { λ x. Some (limits_cell (Some x.0)) };

    fn fmt<W: fmt::Write>(&self, f: &mut fmt::Formatter<W>) -> fmt::Result {
        let limits = self.0;
        write!(f, "{} to {}", price(limits.lower), price(limits.upper))
    }
}
