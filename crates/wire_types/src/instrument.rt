// Futures Instrument Definition.
use crate::code::Listing;

/// One leg of a spread: how many, bought where positive, and of what.
#[derive(Clone, Copy, Debug, PartialEq, Eq)]
pub struct Leg {
    pub ratio: i32,
    pub symbol: [u8; 6],
}

/// The legs of a spread, ten bytes each.
#[derive(Clone, Copy, Debug)]
pub struct Legs<'a> {
    pub rows: &'a [[u8; 10]],
}

/// The parameters of a variance future.
#[derive(Clone, Copy, Debug, PartialEq, Eq)]
pub struct Variance {
    /// Eight decimal places.
    pub realized_variance: i64,
    pub expected_prices: u16,
    pub elapsed_returns: u16,
    pub previous_settlement: i64,
    /// Sixteen decimal places.
    pub discount_factor: i64,
    pub initial_strike: i64,
    /// Six decimal places.
    pub previous_armvm: i64,
    /// Six decimal places.
    pub fed_funds_rate: i64,
}

/// What an instrument is made of.
#[derive(Clone, Copy)]
pub enum Structure<'a> {
    Outright,
    Spread(Legs<'a>),
    Variance(Variance),
}

/// Futures Instrument Definition. Dates are written YYYYMMDD as numbers.
#[derive(Clone, Copy)]
pub struct Definition<'a> {
    pub time_offset: u32,
    pub symbol: &'a [u8; 6],
    pub unit_timestamp: u32,
    pub report_symbol: &'a [u8; 6],
    pub flags: u8,
    pub expiration: u32,
    pub contract_size: u16,
    pub listing: Listing,
    pub increment: i64,
    pub contract_date: u32,
    pub structure: Structure<'a>,
}
