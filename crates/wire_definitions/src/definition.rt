// The fixed part of a definition.
ghost use Rattle.std.specs.Prelude.{◌≡◌, ◌≤◌, length};
ghost use Rattle.wire_definitions.specs.Definitions.{definition_at};
ghost use Rattle.wire_types.specs.Records.{meaning};
ghost use Rattle.wire_types.specs.Refusals.{reads};

use crate::structure::Body;
use wire_fields::{read_code, read_symbol};
use wire_numbers::{Form, Long, Number};
use wire_types::{Definition, Flaw, Message};

/// Futures Instrument Definition, of 45 bytes at least.
pub fn read_definition<'a>(m: &'a [u8]) -> Result<Message<'a>, Flaw>
    requires { 45 ≤ length m.now }
    ensures { reads meaning result ≡ definition_at m.now }
{
    let symbol = read_symbol(m, 6)?;
    let report_symbol = read_symbol(m, 16)?;
    let listing = read_code(m, 29)?;
    let structure = Body { bytes: m }.structure()?;
    Ok(Message::Definition(Definition {
        time_offset: u32::read(m, 2),
        symbol,
        unit_timestamp: u32::read(m, 12),
        report_symbol,
        flags: m[22],
        expiration: u32::read(m, 23),
        contract_size: u16::read(m, 27),
        listing,
        increment: Long::read_price(m, 30),
        contract_date: u32::read(m, 41),
        structure,
    }))
}
