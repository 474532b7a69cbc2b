// A row of the market: what is known of one instrument. Prices are in ten-thousandths, dates are written YYYYMMDD.
ghost use Rattle.market.specs.Aims.{does};
ghost use Rattle.market.specs.Effects as spec;
ghost use Rattle.market.specs.Effects.{edited, no_quotes};
ghost use Rattle.std.specs.Prelude.{◌≡◌};

use crate::kept::counted;
use wire_types::{Issue, LastTrade, Leg, Listing, Message, Quote, Side, Status};

/// The quote part of a row: all that a snapshot sets and a Unit Clear resets.
#[derive(Clone, Copy)]
pub struct Quotes {
    pub bid: Option<Quote>,
    pub ask: Option<Quote>,
    pub last: Option<LastTrade>,
    /// Contracts traded on this business day.
    pub volume: u32,
    pub status: Status,
}

#[derive(Clone, Copy)]
pub struct Settlement {
    pub trade_date: u32,
    pub price: i64,
    pub issue: Issue,
}

#[derive(Clone, Copy)]
pub struct Limits {
    pub upper: i64,
    pub lower: i64,
}

/// What an instrument is.
#[derive(Clone, Copy)]
pub struct Definition {
    pub report_symbol: [u8; 6],
    /// Bit 0: a variance future.
    pub flags: u8,
    pub expiration: u32,
    pub contract_size: u16,
    pub listing: Listing,
    pub increment: i64,
    pub contract_date: u32,
    /// The legs of a spread, in front; an instrument that is no spread has none.
    pub legs: [Option<Leg>; 4],
}

/// What is known of one instrument.
#[derive(Clone, Copy)]
pub struct Row {
    pub symbol: [u8; 6],
    pub quotes: Quotes,
    pub settlement: Option<Settlement>,
    pub limits: Option<Limits>,
    pub definition: Option<Definition>,
}

impl Quotes {
    /// No volume, suspended, and nothing else.
    pub fn new() -> Quotes
        ensures { result ≡ no_quotes }
    {
        Quotes {
            bid: None,
            ask: None,
            last: None,
            volume: 0,
            status: Status::Suspended,
        }
    }
}

impl Row {
    /// A new row of a symbol: no volume, suspended, and nothing else.
    pub fn new(symbol: &[u8; 6]) -> Row
        ensures { result ≡ spec.new_row symbol.now }
    {
        Row {
            symbol: *symbol,
            quotes: Quotes::new(),
            settlement: None,
            limits: None,
            definition: None,
        }
    }

    /// A row that is not in use: a new one whose symbol is six spaces.
    pub fn blank() -> Row
        ensures { result ≡ spec.blank }
    {
        Row::new(b"      ")
    }

    /// Sets what a message says.
    pub fn edit(&mut self, message: &Message<'_>)
        ensures { self.new ≡ edited (does message.now) self.old }
    {
        match message {
            Message::UnitClear { .. } => self.quotes = Quotes::new(),
            Message::TradingStatus(x) => self.quotes.status = x.status,
            Message::Snapshot(x) => self.quotes = x.into(),
            Message::SingleSideUpdate(x) => match x.side {
                Side::Bid => self.quotes.bid = counted(x.quote.quantity, x.quote),
                Side::Ask => self.quotes.ask = counted(x.quote.quantity, x.quote),
            },
            Message::TwoSideUpdate(x) => {
                self.quotes.bid = counted(x.bid.quantity, x.bid);
                self.quotes.ask = counted(x.ask.quantity, x.ask);
            }
            Message::TopTrade(x) => {
                let last = LastTrade {
                    price: x.price,
                    size: x.quantity,
                    condition: x.condition,
                };
                self.quotes.last = counted(last.size, last);
                self.quotes.volume = x.volume;
            }
            Message::Settlement(x) => self.settlement = Some(x.into()),
            Message::Definition(x) => self.definition = Some(x.into()),
            Message::PriceLimits(x) => self.limits = Some(x.into()),
            _ => {}
        }
    }
}
