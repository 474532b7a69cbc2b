// The tested fields of a message: symbols and codes.
#![tactic(auto)]

mod code;
mod symbol;

pub use code::read_code;
pub use symbol::read_symbol;
