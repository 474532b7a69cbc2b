// Bids, asks and trades. Prices are in ten-thousandths, times in nanoseconds after the second that they go by.
use crate::code::{Condition, Side, Status};

/// A price for a number of contracts; with quantity 0 the price says nothing.
#[derive(Clone, Copy, Debug, PartialEq, Eq)]
pub struct Quote {
    pub price: i64,
    pub quantity: u32,
}

/// The last trade of a snapshot; with size 0 there was none.
#[derive(Clone, Copy, Debug, PartialEq, Eq)]
pub struct LastTrade {
    pub price: i64,
    pub size: u32,
    pub condition: Condition,
}

/// Market Snapshot, short or long.
#[derive(Clone, Copy)]
pub struct Snapshot<'a> {
    pub time_offset: u32,
    pub symbol: &'a [u8; 6],
    /// Seconds since the epoch, which `time_offset` counts from.
    pub unit_timestamp: u32,
    pub bid: Quote,
    pub ask: Quote,
    pub last: LastTrade,
    pub volume: u32,
    pub status: Status,
}

/// Single Side Update, short or long.
#[derive(Clone, Copy)]
pub struct SingleSideUpdate<'a> {
    pub time_offset: u32,
    pub symbol: &'a [u8; 6],
    pub side: Side,
    pub quote: Quote,
}

/// Two Side Update, short or long.
#[derive(Clone, Copy)]
pub struct TwoSideUpdate<'a> {
    pub time_offset: u32,
    pub symbol: &'a [u8; 6],
    pub bid: Quote,
    pub ask: Quote,
}

/// TOP Trade.
#[derive(Clone, Copy)]
pub struct TopTrade<'a> {
    pub time_offset: u32,
    pub symbol: &'a [u8; 6],
    pub quantity: u32,
    pub price: i64,
    pub execution_id: u64,
    pub volume: u32,
    pub condition: Condition,
}
