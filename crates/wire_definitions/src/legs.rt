// The legs of a spread, lent from the message.
ghost use Rattle.std.specs.Prelude.{◌≡◌, ◌+◌, ◌*◌, ◌≤◌, length};
ghost use Rattle.wire_definitions.specs.Definitions.{legs_at};
ghost use Rattle.wire_types.specs.Records.{legs_meaning};
ghost use Rattle.wire_types.specs.Refusals.{reads};

use wire_fields::read_symbol;
use wire_types::{Flaw, Legs};

/// The `count` legs from `at` on; or the first byte of their symbols that no symbol may hold.
pub(crate) fn read_legs<'a>(m: &'a [u8], count: u8, at: usize) -> Result<Legs<'a>, Flaw>
    requires { at + 10 * count ≤ length m.now }
    ensures { reads legs_meaning result ≡ legs_at m.now count at }
{
    let end = at + 10 * usize::from(count);
    for leg in (at..end).step_by(10) {
        let _ = read_symbol(m, leg + 4)?;
    }
    Ok(Legs::from(&m[at..end]))
}
