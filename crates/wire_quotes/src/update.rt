// Single Side Update and Two Side Update, each short or long.
ghost use Rattle.std.specs.Prelude.{◌≡◌, ◌+◌, ◌*◌, ◌≤◌, length};
ghost use Rattle.wire_numbers.specs.Prices.{quote_at};
ghost use Rattle.wire_quotes.specs.Layouts.{single_side_at, two_side_at};
ghost use Rattle.wire_types.specs.Records.{meaning};
ghost use Rattle.wire_types.specs.Refusals.{reads};

use wire_fields::{read_code, read_symbol};
use wire_numbers::{Form, Number};
use wire_types::{Flaw, Message, SingleSideUpdate, TwoSideUpdate};

/// Single Side Update, in the form of its quote.
pub fn read_single_side<'a, F: Form>(m: &'a [u8]) -> Result<Message<'a>, Flaw>
    requires { 13 + F.QUOTE ≤ length m.now }
    ensures { reads meaning result ≡ single_side_at (quote_at F.price F.PRICE F.quantity) m.now }
{
    let symbol = read_symbol(m, 6)?;
    let side = read_code(m, 12)?;
    Ok(Message::SingleSideUpdate(SingleSideUpdate {
        time_offset: u32::read(m, 2),
        symbol,
        side,
        quote: F::read_quote(m, 13),
    }))
}

/// Two Side Update, in the form of its quotes.
pub fn read_two_side<'a, F: Form>(m: &'a [u8]) -> Result<Message<'a>, Flaw>
    requires { 12 + 2 * F.QUOTE ≤ length m.now }
    ensures { reads meaning result ≡ two_side_at F.QUOTE (quote_at F.price F.PRICE F.quantity) m.now }
{
    let symbol = read_symbol(m, 6)?;
    Ok(Message::TwoSideUpdate(TwoSideUpdate {
        time_offset: u32::read(m, 2),
        symbol,
        bid: F::read_quote(m, 12),
        ask: F::read_quote(m, 12 + F::QUOTE),
    }))
}
