// Readers of quotes and trades. Each gets just the bytes of its table, whose number has been tested.
#![tactic(auto)]

mod snapshot;
mod trade;
mod update;

pub use snapshot::read_snapshot;
pub use trade::read_top_trade;
pub use update::{read_single_side, read_two_side};
