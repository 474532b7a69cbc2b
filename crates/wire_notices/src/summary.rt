// End of Day Summary.
ghost use Rattle.std.specs.Prelude.{◌≡◌, ◌≤◌, length};
ghost use Rattle.wire_notices.specs.Layouts.{end_of_day_summary_at};
ghost use Rattle.wire_types.specs.Records.{meaning};
ghost use Rattle.wire_types.specs.Refusals.{reads};

use wire_fields::read_symbol;
use wire_numbers::{Form, Long, Number};
use wire_types::{EndOfDaySummary, Flaw, Message};

/// End of Day Summary.
pub fn read_end_of_day_summary<'a>(m: &'a [u8]) -> Result<Message<'a>, Flaw>
    requires { 65 ≤ length m.now }
    ensures { reads meaning result ≡ end_of_day_summary_at m.now }
{
    let symbol = read_symbol(m, 6)?;
    Ok(Message::EndOfDaySummary(EndOfDaySummary {
        time_offset: u32::read(m, 2),
        symbol,
        trade_date: u32::read(m, 12),
        open_interest: u32::read(m, 16),
        high: Long::read_price(m, 20),
        low: Long::read_price(m, 28),
        open: Long::read_price(m, 36),
        close: Long::read_price(m, 44),
        volume: u32::read(m, 52),
        block_volume: u32::read(m, 56),
        ecrp_volume: u32::read(m, 60),
        flags: m[64],
    }))
}
