// TOP Trade.
ghost use Rattle.std.specs.Prelude.{◌≡◌, ◌≤◌, length};
ghost use Rattle.wire_quotes.specs.Layouts.{top_trade_at};
ghost use Rattle.wire_types.specs.Records.{meaning};
ghost use Rattle.wire_types.specs.Refusals.{reads};

use wire_fields::{read_code, read_symbol};
use wire_numbers::{Form, Long, Number};
use wire_types::{Flaw, Message, TopTrade};

/// TOP Trade.
pub fn read_top_trade<'a>(m: &'a [u8]) -> Result<Message<'a>, Flaw>
    requires { 37 ≤ length m.now }
    ensures { reads meaning result ≡ top_trade_at m.now }
{
    let symbol = read_symbol(m, 6)?;
    let condition = read_code(m, 36)?;
    Ok(Message::TopTrade(TopTrade {
        time_offset: u32::read(m, 2),
        symbol,
        quantity: u32::read(m, 12),
        price: Long::read_price(m, 16),
        execution_id: u64::read(m, 24),
        volume: u32::read(m, 32),
        condition,
    }))
}
