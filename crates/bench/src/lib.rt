// What is said line by line, held to what is expected.
#![tactic(auto)]

mod score;
mod trial;

pub use score::{BadScore, Score};
pub use trial::Bench;
