// The types of the feed: codes, headers, messages and faults.
#![tactic(auto)]

mod code;
mod fault;
mod header;
mod instrument;
mod kind;
mod legs;
mod message;
mod quote;

pub use code::{Code, Condition, Issue, Listing, Side, Status, UnknownCode};
pub use fault::{Fault, Flaw, Layer, Why};
pub use header::{Block, Carrier, Header};
pub use instrument::{Definition, Leg, Legs, Structure, Variance};
pub use kind::{FixedKind, Kind};
pub use legs::LegIter;
pub use message::{
    EndOfDaySummary, Message, OpenInterest, PriceLimits, Settlement, SpinResponse, Time,
    TimeReference, TradingStatus,
};
pub use quote::{LastTrade, Quote, SingleSideUpdate, Snapshot, TopTrade, TwoSideUpdate};
