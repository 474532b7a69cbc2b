// A market as lines for scripts: the clock, and one exact line per row.
#![tactic(auto)]

mod clock;
mod code;
mod hex;
mod instrument;
mod part;
mod quotes;
mod row;

pub use clock::ClockLine;
pub use row::RowLine;
