// A message's bytes in, its record or its first fault out.
ghost use Rattle.std.specs.Prelude.{◌≡◌, ◌≤◌, length, MatchResult};
ghost use Rattle.wire_messages.specs.Forms.{decoded, fixed_at, form_at, frame as framed, kind_at};
ghost use Rattle.wire_messages.specs.Kinds.{least, table_length};
ghost use Rattle.wire_messages.specs.Rules.{Refused};
ghost use Rattle.wire_messages.specs.Tails.{Taken};
ghost use Rattle.wire_types.specs.Records.{meaning};
ghost use Rattle.wire_types.specs.Refusals.{breach, breach_of, reads};

use crate::kind::{kind_of, least_length, table_length};
use wire_definitions::read_definition;
use wire_notices::{
    read_end_of_day_summary, read_open_interest, read_price_limits, read_settlement,
    read_trading_status,
};
use wire_numbers::{Long, Short};
use wire_quotes::{read_single_side, read_snapshot, read_top_trade, read_two_side};
use wire_session::{
    read_end_of_session, read_spin_finished, read_spin_image_available, read_spin_response,
    read_time, read_time_reference, read_unit_clear,
};
use wire_types::{Carrier, FixedKind, Flaw, Kind, Message, Why};

/// The message in front of the bytes, as a datagram or a spin block has it; or the first rule that it breaks, with the lowest byte.
/// What stands behind the message is not looked at.
pub fn decode<'a>(carrier: Carrier, bytes: &'a [u8]) -> Result<Message<'a>, Flaw>
    ensures value { reads meaning result ≡ decoded carrier bytes.now }
    ensures law { MatchResult result (λ x. Taken carrier bytes.now (meaning x)) (λ e. Refused carrier bytes.now (breach_of e)) }
{
    read_front(carrier, bytes)
}

/// The bytes of the message in front, as many as its Length says.
pub fn frame<'a>(bytes: &'a [u8]) -> Result<&'a [u8], Flaw>
    ensures value { reads (λ x. x.now) result ≡ framed bytes.now }
    ensures cases { MatchResult result (λ m. 2 ≤ length m.now) (λ e. breach_of e ≡ breach 8 0) }
{
    let flaw = Flaw {
        why: Why::MessageLength,
        byte: 0,
    };
    match bytes {
        [length @ 2.., ..] => bytes.get(..usize::from(*length)).ok_or(flaw),
        _ => Err(flaw),
    }
}

fn read_front<'a>(carrier: Carrier, bytes: &'a [u8]) -> Result<Message<'a>, Flaw>
    ensures { reads meaning result ≡ decoded carrier bytes.now }
{
    let m = frame(bytes)?;
    read_kind(kind_of(carrier, m[1]), m)
}

fn read_kind<'a>(kind: Kind, m: &'a [u8]) -> Result<Message<'a>, Flaw>
    requires { 2 ≤ length m.now }
    ensures { reads meaning result ≡ form_at kind m.now }
{
    if m.len() < least_length(kind) {
        return Err(Flaw {
            why: Why::BelowLeast,
            byte: 0,
        });
    }
    read_long_enough(kind, m)
}

fn read_long_enough<'a>(kind: Kind, m: &'a [u8]) -> Result<Message<'a>, Flaw>
    requires { least kind ≤ length m.now }
    ensures { reads meaning result ≡ kind_at kind m.now }
{
    match kind {
        Kind::Fixed(table) => read_table(table, &m[0..table_length(table)]),
        Kind::Definition => read_definition(m),
        Kind::Unlisted => Ok(Message::Unlisted { kind: m[1] }),
    }
}

fn read_table<'a>(table: FixedKind, m: &'a [u8]) -> Result<Message<'a>, Flaw>
    requires { table_length table ≤ length m.now }
    ensures { reads meaning result ≡ fixed_at table m.now }
{
    match table {
        FixedKind::Time => read_time(m),
        FixedKind::TimeReference => read_time_reference(m),
        FixedKind::UnitClear => read_unit_clear(m),
        FixedKind::TradingStatus => read_trading_status(m),
        FixedKind::SnapshotShort => read_snapshot::<Short>(m),
        FixedKind::SnapshotLong => read_snapshot::<Long>(m),
        FixedKind::SingleSideShort => read_single_side::<Short>(m),
        FixedKind::SingleSideLong => read_single_side::<Long>(m),
        FixedKind::TwoSideShort => read_two_side::<Short>(m),
        FixedKind::TwoSideLong => read_two_side::<Long>(m),
        FixedKind::TopTrade => read_top_trade(m),
        FixedKind::Settlement => read_settlement(m),
        FixedKind::PriceLimits => read_price_limits(m),
        FixedKind::EndOfSession => read_end_of_session(m),
        FixedKind::EndOfDaySummary => read_end_of_day_summary(m),
        FixedKind::OpenInterest => read_open_interest(m),
        FixedKind::SpinImageAvailable => read_spin_image_available(m),
        FixedKind::SpinResponse => read_spin_response(m),
        FixedKind::SpinFinished => read_spin_finished(m),
    }
}
