// Futures Instrument Definition: the one listed type whose length depends on its content.
#![tactic(auto)]

mod definition;
mod legs;
mod structure;

pub use definition::read_definition;
