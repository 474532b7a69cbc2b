// A decoded message.
use crate::code::{Issue, Status};
use crate::instrument::Definition;
use crate::quote::{SingleSideUpdate, Snapshot, TopTrade, TwoSideUpdate};

/// Time: the second that later time offsets count from.
#[derive(Clone, Copy, Debug, PartialEq, Eq)]
pub struct Time {
    /// Seconds since midnight.
    pub seconds: u32,
    /// Seconds since the epoch.
    pub epoch: u32,
}

/// Time Reference.
#[derive(Clone, Copy, Debug, PartialEq, Eq)]
pub struct TimeReference {
    /// Midnight, in seconds since the epoch.
    pub midnight: u32,
    pub seconds: u32,
    pub time_offset: u32,
    pub trade_date: u32,
}

/// Trading Status.
#[derive(Clone, Copy)]
pub struct TradingStatus<'a> {
    pub time_offset: u32,
    pub symbol: &'a [u8; 6],
    pub status: Status,
}

/// Settlement.
#[derive(Clone, Copy)]
pub struct Settlement<'a> {
    pub time_offset: u32,
    pub symbol: &'a [u8; 6],
    pub trade_date: u32,
    pub price: i64,
    pub issue: Issue,
}

/// Price Limits.
#[derive(Clone, Copy)]
pub struct PriceLimits<'a> {
    pub time_offset: u32,
    pub symbol: &'a [u8; 6],
    pub upper: i64,
    pub lower: i64,
}

/// End of Day Summary.
#[derive(Clone, Copy)]
pub struct EndOfDaySummary<'a> {
    pub time_offset: u32,
    pub symbol: &'a [u8; 6],
    pub trade_date: u32,
    pub open_interest: u32,
    pub high: i64,
    pub low: i64,
    pub open: i64,
    pub close: i64,
    pub volume: u32,
    pub block_volume: u32,
    pub ecrp_volume: u32,
    pub flags: u8,
}

/// Open Interest.
#[derive(Clone, Copy)]
pub struct OpenInterest<'a> {
    pub time_offset: u32,
    pub symbol: &'a [u8; 6],
    pub trade_date: u32,
    pub open_interest: u32,
}

/// Spin Response; `status` is a letter, `A` where the spin comes.
#[derive(Clone, Copy, Debug, PartialEq, Eq)]
pub struct SpinResponse {
    pub sequence: u32,
    pub order_count: u32,
    pub status: u8,
}

/// A message of a block. Symbols and legs are lent from the block's bytes.
#[derive(Clone, Copy)]
pub enum Message<'a> {
    Time(Time),
    TimeReference(TimeReference),
    UnitClear { time_offset: u32 },
    TradingStatus(TradingStatus<'a>),
    Snapshot(Snapshot<'a>),
    SingleSideUpdate(SingleSideUpdate<'a>),
    TwoSideUpdate(TwoSideUpdate<'a>),
    TopTrade(TopTrade<'a>),
    Settlement(Settlement<'a>),
    Definition(Definition<'a>),
    PriceLimits(PriceLimits<'a>),
    EndOfSession { time_offset: u32 },
    EndOfDaySummary(EndOfDaySummary<'a>),
    OpenInterest(OpenInterest<'a>),
    SpinImageAvailable { sequence: u32 },
    SpinResponse(SpinResponse),
    SpinFinished { sequence: u32 },
    /// A type that is not listed, by its byte.
    Unlisted { kind: u8 },
}
