// Whole blocks in words.
#![tactic(auto)]

mod indented;
mod report;

pub use indented::Indented;
pub use report::{Report, describe};
