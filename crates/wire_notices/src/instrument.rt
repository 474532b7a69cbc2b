// An instrument apart from its quotes: Trading Status, Settlement, Price Limits, Open Interest.
ghost use Rattle.std.specs.Prelude.{◌≡◌, ◌≤◌, length};
ghost use Rattle.wire_notices.specs.Layouts.{trading_status_at, settlement_at, price_limits_at, open_interest_at};
ghost use Rattle.wire_types.specs.Records.{meaning};
ghost use Rattle.wire_types.specs.Refusals.{reads};

use wire_fields::{read_code, read_symbol};
use wire_numbers::{Form, Long, Number};
use wire_types::{Flaw, Message, OpenInterest, PriceLimits, Settlement, TradingStatus};

/// Trading Status.
pub fn read_trading_status<'a>(m: &'a [u8]) -> Result<Message<'a>, Flaw>
    requires { 18 ≤ length m.now }
    ensures { reads meaning result ≡ trading_status_at m.now }
{
    let symbol = read_symbol(m, 6)?;
    let status = read_code(m, 14)?;
    Ok(Message::TradingStatus(TradingStatus {
        time_offset: u32::read(m, 2),
        symbol,
        status,
    }))
}

/// Settlement.
pub fn read_settlement<'a>(m: &'a [u8]) -> Result<Message<'a>, Flaw>
    requires { 25 ≤ length m.now }
    ensures { reads meaning result ≡ settlement_at m.now }
{
    let symbol = read_symbol(m, 6)?;
    let issue = read_code(m, 24)?;
    Ok(Message::Settlement(Settlement {
        time_offset: u32::read(m, 2),
        symbol,
        trade_date: u32::read(m, 12),
        price: Long::read_price(m, 16),
        issue,
    }))
}

/// Price Limits.
pub fn read_price_limits<'a>(m: &'a [u8]) -> Result<Message<'a>, Flaw>
    requires { 28 ≤ length m.now }
    ensures { reads meaning result ≡ price_limits_at m.now }
{
    let symbol = read_symbol(m, 6)?;
    Ok(Message::PriceLimits(PriceLimits {
        time_offset: u32::read(m, 2),
        symbol,
        upper: Long::read_price(m, 12),
        lower: Long::read_price(m, 20),
    }))
}

/// Open Interest.
pub fn read_open_interest<'a>(m: &'a [u8]) -> Result<Message<'a>, Flaw>
    requires { 20 ≤ length m.now }
    ensures { reads meaning result ≡ open_interest_at m.now }
{
    let symbol = read_symbol(m, 6)?;
    Ok(Message::OpenInterest(OpenInterest {
        time_offset: u32::read(m, 2),
        symbol,
        trade_date: u32::read(m, 12),
        open_interest: u32::read(m, 16),
    }))
}
