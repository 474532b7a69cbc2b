// The exchange's clock.
ghost use Rattle.market.specs.Aims.{does};
ghost use Rattle.market.specs.Effects.{ticked};
ghost use Rattle.market.specs.Market.{zero_clock};
ghost use Rattle.std.specs.Prelude.{◌≡◌};

use wire_types::Message;

/// What the feed has told of the time, all 0 before it has told anything.
#[derive(Clone, Copy, Default)]
pub struct Clock {
    /// Seconds since midnight.
    pub seconds: u32,
    /// The same second, counted since the epoch.
    pub epoch: u32,
    /// Midnight, in seconds since the epoch.
    pub midnight: u32,
    /// Written YYYYMMDD.
    pub trade_date: u32,
}

impl Clock {
    /// A clock that has been told nothing.
    pub fn new() -> Clock
        ensures { result ≡ zero_clock }
    {
        Clock::default()
    }

    /// Sets the clock as a message says.
    pub fn tick(&mut self, message: &Message<'_>)
        ensures { self.new ≡ ticked (does message.now) self.old }
    {
        match message {
            Message::Time(x) => {
                self.seconds = x.seconds;
                self.epoch = x.epoch;
            }
            Message::TimeReference(x) => {
                self.midnight = x.midnight;
                self.seconds = x.seconds;
                self.trade_date = x.trade_date;
            }
            _ => {}
        }
    }
}
