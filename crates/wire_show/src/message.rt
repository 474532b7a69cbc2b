// A message in words.
use std::fmt::{self, Display};
use wire_types::Message;
use wire_words::HexByte;

/// A message, or a part of one, on one line: its name, and each field's name and value in the order of the layout.
#[derive(Clone, Copy)]
pub struct Shown<T>(pub T);

impl Display for Shown<Message<'_>> {
    fn fmt<W: fmt::Write>(&self, f: &mut fmt::Formatter<W>) -> fmt::Result {
        match self.0 {
            Message::Time(m) => Shown(m).fmt(f),
            Message::TimeReference(m) => Shown(m).fmt(f),
            Message::UnitClear { time_offset } => write!(
                f,
                "Unit Clear, time offset {time_offset}"
            ),
            Message::TradingStatus(m) => Shown(m).fmt(f),
            Message::Snapshot(m) => Shown(m).fmt(f),
            Message::SingleSideUpdate(m) => Shown(m).fmt(f),
            Message::TwoSideUpdate(m) => Shown(m).fmt(f),
            Message::TopTrade(m) => Shown(m).fmt(f),
            Message::Settlement(m) => Shown(m).fmt(f),
            Message::Definition(m) => Shown(m).fmt(f),
            Message::PriceLimits(m) => Shown(m).fmt(f),
            Message::EndOfSession { time_offset } => write!(
                f,
                "End of Session, time offset {time_offset}"
            ),
            Message::EndOfDaySummary(m) => Shown(m).fmt(f),
            Message::OpenInterest(m) => Shown(m).fmt(f),
            Message::SpinImageAvailable { sequence } => write!(
                f,
                "Spin Image Available, sequence {sequence}"
            ),
            Message::SpinResponse(m) => Shown(m).fmt(f),
            Message::SpinFinished { sequence } => write!(f, "Spin Finished, sequence {sequence}"),
            Message::Unlisted { kind } => write!(f, "unlisted type 0x{}", HexByte(kind)),
        }
    }
}
