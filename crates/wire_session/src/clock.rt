// The clock of a unit: Time, Time Reference, Unit Clear, End of Session.
ghost use Rattle.std.specs.Prelude.{◌≡◌, ◌≤◌, length};
ghost use Rattle.wire_session.specs.Layouts.{time_at, time_reference_at, unit_clear_at, end_of_session_at};
ghost use Rattle.wire_types.specs.Records.{meaning};
ghost use Rattle.wire_types.specs.Refusals.{reads};

use wire_numbers::Number;
use wire_types::{Flaw, Message, Time, TimeReference};

/// Time.
pub fn read_time<'a>(m: &'a [u8]) -> Result<Message<'a>, Flaw>
    requires { 10 ≤ length m.now }
    ensures { reads meaning result ≡ time_at m.now }
{
    Ok(Message::Time(Time {
        seconds: u32::read(m, 2),
        epoch: u32::read(m, 6),
    }))
}

/// Time Reference.
pub fn read_time_reference<'a>(m: &'a [u8]) -> Result<Message<'a>, Flaw>
    requires { 18 ≤ length m.now }
    ensures { reads meaning result ≡ time_reference_at m.now }
{
    Ok(Message::TimeReference(TimeReference {
        midnight: u32::read(m, 2),
        seconds: u32::read(m, 6),
        time_offset: u32::read(m, 10),
        trade_date: u32::read(m, 14),
    }))
}

/// Unit Clear.
pub fn read_unit_clear<'a>(m: &'a [u8]) -> Result<Message<'a>, Flaw>
    requires { 6 ≤ length m.now }
    ensures { reads meaning result ≡ unit_clear_at m.now }
{
    Ok(Message::UnitClear {
        time_offset: u32::read(m, 2),
    })
}

/// End of Session.
pub fn read_end_of_session<'a>(m: &'a [u8]) -> Result<Message<'a>, Flaw>
    requires { 6 ≤ length m.now }
    ensures { reads meaning result ≡ end_of_session_at m.now }
{
    Ok(Message::EndOfSession {
        time_offset: u32::read(m, 2),
    })
}
