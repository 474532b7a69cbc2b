// Prices, quotes, symbols and bytes as text, and a dash for what is absent.
#![tactic(auto)]

mod dash;
mod decimal;
mod part;

pub use dash::OrDash;
pub use decimal::{Decimal, price};
pub use part::{HexByte, Letter, ShownQuote, Symbol};
