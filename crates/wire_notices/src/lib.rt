// Readers of the types that tell of an instrument apart from its quotes. Each gets just the bytes of its table, whose number has
// been tested.
#![tactic(auto)]

mod instrument;
mod summary;

pub use instrument::{read_open_interest, read_price_limits, read_settlement, read_trading_status};
pub use summary::read_end_of_day_summary;
