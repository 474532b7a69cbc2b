// A market: a clock, rows, and what a message does to them.
#![tactic(auto)]

mod aim;
mod clock;
mod kept;
mod laws;
mod legs;
mod row;
mod symbol;

pub use aim::{Target, hear};
pub use clock::Clock;
pub use laws::{examples_hold, laws_hold};
pub use row::{Definition, Limits, Quotes, Row, Settlement};
pub use symbol::comes_before;
pub use wire_types::Leg;
