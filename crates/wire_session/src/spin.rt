// The messages that only spin blocks know.
ghost use Rattle.std.specs.Prelude.{◌≡◌, ◌≤◌, length};
ghost use Rattle.wire_session.specs.Layouts.{spin_image_available_at, spin_response_at, spin_finished_at};
ghost use Rattle.wire_types.specs.Records.{meaning};
ghost use Rattle.wire_types.specs.Refusals.{reads};

use wire_numbers::Number;
use wire_types::{Flaw, Message, SpinResponse};

/// Spin Image Available.
pub fn read_spin_image_available<'a>(m: &'a [u8]) -> Result<Message<'a>, Flaw>
    requires { 6 ≤ length m.now }
    ensures { reads meaning result ≡ spin_image_available_at m.now }
{
    Ok(Message::SpinImageAvailable {
        sequence: u32::read(m, 2),
    })
}

/// Spin Response.
pub fn read_spin_response<'a>(m: &'a [u8]) -> Result<Message<'a>, Flaw>
    requires { 11 ≤ length m.now }
    ensures { reads meaning result ≡ spin_response_at m.now }
{
    Ok(Message::SpinResponse(SpinResponse {
        sequence: u32::read(m, 2),
        order_count: u32::read(m, 6),
        status: m[10],
    }))
}

/// Spin Finished.
pub fn read_spin_finished<'a>(m: &'a [u8]) -> Result<Message<'a>, Flaw>
    requires { 6 ≤ length m.now }
    ensures { reads meaning result ≡ spin_finished_at m.now }
{
    Ok(Message::SpinFinished {
        sequence: u32::read(m, 2),
    })
}
