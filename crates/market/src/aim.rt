// What a message acts on.
ghost use Rattle.market.specs.Aims.{aimed, does};
ghost use Rattle.market.specs.Effects.{aim};
ghost use Rattle.market.specs.Market.{heard};
ghost use Rattle.std.specs.Prelude.{◌≡◌};

use wire_messages::decode;
use wire_types::{Carrier, Message};

/// What a message acts on.
#[derive(Clone, Copy)]
pub enum Target<'a> {
    Nothing,
    Clock,
    EveryRow,
    /// The row of this symbol.
    Row(&'a [u8; 6]),
}

impl<'a> Target<'a> {
    /// What a message acts on.
    pub fn of(message: &Message<'a>) -> Target<'a>
        ensures { aimed result ≡ aim (does message.now) }
    {
        match message {
            Message::Time(_) | Message::TimeReference(_) => Target::Clock,
            Message::UnitClear { .. } => Target::EveryRow,
            Message::TradingStatus(x) => Target::Row(x.symbol),
            Message::Snapshot(x) => Target::Row(x.symbol),
            Message::SingleSideUpdate(x) => Target::Row(x.symbol),
            Message::TwoSideUpdate(x) => Target::Row(x.symbol),
            Message::TopTrade(x) => Target::Row(x.symbol),
            Message::Settlement(x) => Target::Row(x.symbol),
            Message::Definition(x) => Target::Row(x.symbol),
            Message::PriceLimits(x) => Target::Row(x.symbol),
            _ => Target::Nothing,
        }
    }
}

/// The message in front of the bytes. Bytes that break a rule of form are heard as a message that does nothing.
pub fn hear<'a>(bytes: &'a [u8]) -> Message<'a>
    ensures { does result ≡ heard bytes.now }
{
    decode(Carrier::Datagram, bytes).unwrap_or(Message::Unlisted { kind: 0 })
}
