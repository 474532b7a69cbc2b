// Numbers, prices and quotes out of a message's bytes.
#![tactic(auto)]

mod number;
mod price;

pub use number::{Number, bytes_at};
pub use price::{Form, Long, Short};
