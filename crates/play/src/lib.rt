// Blocks played to a book: checked, and then message by message.
#![tactic(auto)]

mod block;
mod taking;

pub use block::{Declined, Played};
pub use taking::{Taken, take_block};
