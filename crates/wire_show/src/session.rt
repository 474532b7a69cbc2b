// Times, the day's figures and spins, in words.
use crate::message::Shown;
use std::fmt;
use wire_types::{EndOfDaySummary, OpenInterest, SpinResponse, Time, TimeReference};
use wire_words::{Letter, Symbol, price};

impl fmt::Display for Shown<Time> {
    fn fmt<W: fmt::Write>(&self, f: &mut fmt::Formatter<W>) -> fmt::Result {
        let m = self.0;
        write!(f, "Time, seconds {}, epoch {}", m.seconds, m.epoch)
    }
}

impl fmt::Display for Shown<TimeReference> {
    fn fmt<W: fmt::Write>(&self, f: &mut fmt::Formatter<W>) -> fmt::Result {
        let m = self.0;
        write!(
            f,
            "Time Reference, midnight {}, seconds {}, time offset {}, trade date {}",
            m.midnight, m.seconds, m.time_offset, m.trade_date,
        )
    }
}

impl fmt::Display for Shown<EndOfDaySummary<'_>> {
    fn fmt<W: fmt::Write>(&self, f: &mut fmt::Formatter<W>) -> fmt::Result {
        let m = self.0;
        write!(
            f,
            "End of Day Summary, time offset {}, symbol {}, trade date {}, open interest {}",
            m.time_offset,
            Symbol(m.symbol),
            m.trade_date,
            m.open_interest,
        )?;
        write!(
            f,
            ", high {}, low {}, open {}, close {}",
            price(m.high),
            price(m.low),
            price(m.open),
            price(m.close),
        )?;
        write!(
            f,
            ", volume {}, block volume {}, ECRP volume {}, flags {}",
            m.volume, m.block_volume, m.ecrp_volume, m.flags,
        )
    }
}

impl fmt::Display for Shown<OpenInterest<'_>> {
    fn fmt<W: fmt::Write>(&self, f: &mut fmt::Formatter<W>) -> fmt::Result {
        let m = self.0;
        write!(
            f,
            "Open Interest, time offset {}, symbol {}, trade date {}, open interest {}",
            m.time_offset,
            Symbol(m.symbol),
            m.trade_date,
            m.open_interest,
        )
    }
}

impl fmt::Display for Shown<SpinResponse> {
    fn fmt<W: fmt::Write>(&self, f: &mut fmt::Formatter<W>) -> fmt::Result {
        let m = self.0;
        write!(
            f,
            "Spin Response, sequence {}, order count {}, status {}",
            m.sequence,
            m.order_count,
            Letter(m.status),
        )
    }
}
