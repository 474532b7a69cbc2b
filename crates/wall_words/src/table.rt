// The lines of two tables of rows.
use crate::cell::{LimitsCell, QuoteCell, SettlementCell, TradeCell};
use crate::instrument::DefinitionCell;
use market::Row;
use std::alloc::{AllocError, Global};
use std::fmt;
use wire_words::Symbol;

/// A table with one line for each row.
pub trait Table {
    /// The names of the columns, with the line's end.
    fn heading(heap: Global) -> Result<String, AllocError>;

    /// The line of a row, with its end.
    fn line(heap: Global, row: &Row) -> Result<String, AllocError>;
}

/// Symbol, status, bid, ask, last trade and volume.
#[derive(Clone, Copy)]
pub struct QuotesTable;

impl Table for QuotesTable {
    fn heading(heap: Global) -> Result<String, AllocError> {
        let columns = QuotesColumns {
            symbol: "symbol",
            status: "status",
            bid: "bid",
            ask: "ask",
            last: "last trade",
            volume: "volume",
        };
        columns.to_string(heap)
    }

    fn line(heap: Global, row: &Row) -> Result<String, AllocError> {
        let quotes = row.quotes;
        let symbol = Symbol(&row.symbol).to_string(heap)?;
        let bid = QuoteCell(quotes.bid).to_string(heap)?;
        let ask = QuoteCell(quotes.ask).to_string(heap)?;
        let last = TradeCell(quotes.last).to_string(heap)?;
        let volume = quotes.volume.to_string(heap)?;
        let columns = QuotesColumns {
            symbol: symbol.as_str(),
            status: quotes.status.word(),
            bid: bid.as_str(),
            ask: ask.as_str(),
            last: last.as_str(),
            volume: volume.as_str(),
        };
        columns.to_string(heap)
    }
}

/// Symbol, settlement, limits and definition.
#[derive(Clone, Copy)]
pub struct InstrumentsTable;

impl Table for InstrumentsTable {
    fn heading(heap: Global) -> Result<String, AllocError> {
        let columns = InstrumentsColumns {
            symbol: "symbol",
            settlement: "settlement",
            limits: "limits",
            definition: "definition",
        };
        columns.to_string(heap)
    }

    fn line(heap: Global, row: &Row) -> Result<String, AllocError> {
        let symbol = Symbol(&row.symbol).to_string(heap)?;
        let settlement = SettlementCell(row.settlement).to_string(heap)?;
        let limits = LimitsCell(row.limits).to_string(heap)?;
        let definition = DefinitionCell(row.definition).to_string(heap)?;
        let columns = InstrumentsColumns {
            symbol: symbol.as_str(),
            settlement: settlement.as_str(),
            limits: limits.as_str(),
            definition: definition.as_str(),
        };
        columns.to_string(heap)
    }
}

/// A line of the table of quotes.
#[derive(Clone, Copy)]
struct QuotesColumns<'a> {
    symbol: &'a str,
    status: &'a str,
    bid: &'a str,
    ask: &'a str,
    last: &'a str,
    volume: &'a str,
}

impl fmt::Display for QuotesColumns<'_> {
    fn fmt<W: fmt::Write>(&self, f: &mut fmt::Formatter<W>) -> fmt::Result {
        let QuotesColumns {
            symbol,
            status,
            bid,
            ask,
            last,
            volume,
        } = *self;
        writeln!(
            f,
            "{symbol:<8}  {status:<9}  {bid:>19}  {ask:>19}  {last:>30}  {volume:>10}"
        )
    }
}

/// A line of the table of instruments.
#[derive(Clone, Copy)]
struct InstrumentsColumns<'a> {
    symbol: &'a str,
    settlement: &'a str,
    limits: &'a str,
    definition: &'a str,
}

impl fmt::Display for InstrumentsColumns<'_> {
    fn fmt<W: fmt::Write>(&self, f: &mut fmt::Formatter<W>) -> fmt::Result {
        let InstrumentsColumns {
            symbol,
            settlement,
            limits,
            definition,
        } = *self;
        writeln!(
            f,
            "{symbol:<8}  {settlement:>32}  {limits:>28}  {definition}"
        )
    }
}
