// Messages in words.
#![tactic(auto)]

mod instrument;
mod market;
mod message;
mod session;

pub use message::Shown;
