// One message: framed by its Length, told by its type, read by its table.
#![tactic(auto)]

mod decoding;
mod kind;

pub use decoding::{decode, frame};
pub use kind::{kind_of, least_length};
