// Whole blocks: accepted with their header, or refused with the first fault.
#![tactic(auto)]

mod checking;

pub use checking::{check, check_for};
