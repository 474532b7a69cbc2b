// Market Snapshot, short or long.
ghost use Rattle.std.specs.Prelude.{◌≡◌, ◌+◌, ◌*◌, ◌≤◌, length};
ghost use Rattle.wire_numbers.specs.Prices.{quote_at};
ghost use Rattle.wire_quotes.specs.Layouts.{snapshot_at};
ghost use Rattle.wire_types.specs.Records.{meaning};
ghost use Rattle.wire_types.specs.Refusals.{reads};

use wire_fields::{read_code, read_symbol};
use wire_numbers::{Form, Number};
use wire_types::{Flaw, LastTrade, Message, Snapshot};

/// Market Snapshot, in the form of its quotes.
pub fn read_snapshot<'a, F: Form>(m: &'a [u8]) -> Result<Message<'a>, Flaw>
    requires { 25 + 3 * F.QUOTE ≤ length m.now }
    ensures { reads meaning result ≡ snapshot_at F.QUOTE (quote_at F.price F.PRICE F.quantity) m.now }
{
    // The last trade stands as quotes do, with its condition behind.
    let behind = 16 + 3 * F::QUOTE;
    let symbol = read_symbol(m, 6)?;
    let condition = read_code(m, behind)?;
    let status = read_code(m, behind + 5)?;
    let last = F::read_quote(m, 16 + 2 * F::QUOTE);
    Ok(Message::Snapshot(Snapshot {
        time_offset: u32::read(m, 2),
        symbol,
        unit_timestamp: u32::read(m, 12),
        bid: F::read_quote(m, 16),
        ask: F::read_quote(m, 16 + F::QUOTE),
        last: LastTrade {
            price: last.price,
            size: last.quantity,
            condition,
        },
        volume: u32::read(m, behind + 1),
        status,
    }))
}
