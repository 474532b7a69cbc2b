// A market in words: its clock, and the lines of two tables of its rows.
// What cells and the clock say is proved; what is said of a definition, and the columns, are held to expected text by `wall`.
#![tactic(auto)]

mod cell;
mod clock;
mod instrument;
mod table;

pub use cell::{LimitsCell, QuoteCell, SettlementCell, TradeCell};
pub use clock::ClockLine;
pub use instrument::DefinitionCell;
pub use table::{InstrumentsTable, QuotesTable, Table};
