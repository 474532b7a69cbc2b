// Rows in ascending order of symbol, on a slice that is lent.
#![tactic(auto)]

mod calls;
mod place;
mod store;

pub use place::blank_rows;
pub use store::Store;
