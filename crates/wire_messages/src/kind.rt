// Which types of messages are known, and how long each is at least.
ghost use Rattle.wire_messages.specs.Kinds.{kind_of, top_kind, least, table_length};
ghost use Rattle.std.specs.Prelude.{◌≡◌};

use wire_types::{Carrier, FixedKind, Kind};

/// What a type byte names in a datagram or in a spin block.
pub fn kind_of(carrier: Carrier, b: u8) -> Kind
    ensures { result ≡ kind_of carrier b }
{
    match carrier {
        Carrier::Datagram => top_kind(b),
        Carrier::Spin => match b {
            0x80 => Kind::Fixed(FixedKind::SpinImageAvailable),
            0x82 => Kind::Fixed(FixedKind::SpinResponse),
            0x83 => Kind::Fixed(FixedKind::SpinFinished),
            _ => top_kind(b),
        },
    }
}

/// How many bytes a message of the kind has at least.
pub fn least_length(kind: Kind) -> usize
    ensures { result ≡ least kind }
{
    match kind {
        Kind::Fixed(table) => table_length(table),
        Kind::Definition => 45,
        Kind::Unlisted => 2,
    }
}

pub(crate) fn table_length(table: FixedKind) -> usize
    ensures { result ≡ table_length table }
{
    match table {
        FixedKind::Time => 10,
        FixedKind::TimeReference => 18,
        FixedKind::UnitClear => 6,
        FixedKind::TradingStatus => 18,
        FixedKind::SnapshotShort => 37,
        FixedKind::SnapshotLong => 61,
        FixedKind::SingleSideShort => 17,
        FixedKind::SingleSideLong => 25,
        FixedKind::TwoSideShort => 20,
        FixedKind::TwoSideLong => 36,
        FixedKind::TopTrade => 37,
        FixedKind::Settlement => 25,
        FixedKind::PriceLimits => 28,
        FixedKind::EndOfSession => 6,
        FixedKind::EndOfDaySummary => 65,
        FixedKind::OpenInterest => 20,
        FixedKind::SpinImageAvailable => 6,
        FixedKind::SpinResponse => 11,
        FixedKind::SpinFinished => 6,
    }
}

fn top_kind(b: u8) -> Kind
    ensures { result ≡ top_kind b }
{
    match b {
        0x20 => Kind::Fixed(FixedKind::Time),
        0xb1 => Kind::Fixed(FixedKind::TimeReference),
        0x97 => Kind::Fixed(FixedKind::UnitClear),
        0x31 => Kind::Fixed(FixedKind::TradingStatus),
        0xb2 => Kind::Fixed(FixedKind::SnapshotShort),
        0xb3 => Kind::Fixed(FixedKind::SnapshotLong),
        0xb4 => Kind::Fixed(FixedKind::SingleSideShort),
        0xb5 => Kind::Fixed(FixedKind::SingleSideLong),
        0xb6 => Kind::Fixed(FixedKind::TwoSideShort),
        0xb7 => Kind::Fixed(FixedKind::TwoSideLong),
        0xb8 => Kind::Fixed(FixedKind::TopTrade),
        0xb9 => Kind::Fixed(FixedKind::Settlement),
        0xbb => Kind::Definition,
        0xbe => Kind::Fixed(FixedKind::PriceLimits),
        0x2d => Kind::Fixed(FixedKind::EndOfSession),
        0xba => Kind::Fixed(FixedKind::EndOfDaySummary),
        0xd3 => Kind::Fixed(FixedKind::OpenInterest),
        _ => Kind::Unlisted,
    }
}
