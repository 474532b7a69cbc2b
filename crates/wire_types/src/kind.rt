// The listed types of messages.

/// What a type byte names: a type whose table has one length, a definition, or nothing that is listed.
#[derive(Clone, Copy)]
pub enum Kind {
    Fixed(FixedKind),
    Definition,
    Unlisted,
}

/// The types whose table has one length.
#[derive(Clone, Copy)]
pub enum FixedKind {
    Time,
    TimeReference,
    UnitClear,
    TradingStatus,
    SnapshotShort,
    SnapshotLong,
    SingleSideShort,
    SingleSideLong,
    TwoSideShort,
    TwoSideLong,
    TopTrade,
    Settlement,
    PriceLimits,
    EndOfSession,
    EndOfDaySummary,
    OpenInterest,
    SpinImageAvailable,
    SpinResponse,
    SpinFinished,
}
