// What stands behind the fixed part of a definition: legs, a variance block, or nothing.
ghost use Rattle.std.specs.Prelude.{◌≡◌, ◌+◌, ◌≤◌, length};
ghost use Rattle.wire_definitions.specs.Definitions.{variance_at};
ghost use Rattle.wire_types.specs.Records.{makeup};
ghost use Rattle.wire_types.specs.Refusals.{reads};

use crate::legs::read_legs;
use wire_numbers::{Form, Long, Number};
use wire_types::{Flaw, Structure, Variance, Why};

/// Where legs or a variance block begin.
const BEHIND: u8 = 45;

/// The bytes of a definition, its fixed part at least.
#[derive(Clone, Copy)]
pub(crate) struct Body<'a> {
    pub(crate) bytes: &'a [u8],
    ghost fixed: { 45 ≤ length bytes.now },
}

impl<'a> Body<'a> {
    ghost use Rattle.wire_definitions.specs.Definitions.{is_variance, keeps_leg_rule, makeup_at};

    /// What the instrument is made of, by the rule for legs and variance.
    pub(crate) fn structure(self) -> Result<Structure<'a>, Flaw>
        ensures { reads makeup result ≡ makeup_at self.entry.bytes.now }
    {
        if !self.keeps_leg_rule() {
            return Err(Flaw {
                why: Why::LegRule,
                byte: 38,
            });
        }
        if self.is_variance() {
            return Ok(Structure::Variance(read_variance(self.bytes, 45)));
        }
        match self.bytes[38] {
            0 => Ok(Structure::Outright),
            count => Ok(Structure::Spread(read_legs(self.bytes, count, 45)?)),
        }
    }

    fn keeps_leg_rule(self) -> bool
        ensures { result ≡ keeps_leg_rule self.entry.bytes.now }
    {
        let m = self.bytes;
        let legs = m[38];
        if self.is_variance() {
            legs == 0 && m[40] == BEHIND && m.len() >= 97
        } else {
            legs == 0 || legs <= 4 && m[39] == BEHIND && m.len() >= 45 + 10 * usize::from(legs)
        }
    }

    fn is_variance(self) -> bool
        ensures { result ≡ is_variance self.entry.bytes.now }
    {
        self.bytes[22] % 2 == 1
    }
}

fn read_variance(m: &[u8], at: usize) -> Variance
    requires { at + 52 ≤ length m.now }
    ensures { result ≡ variance_at m.now at }
{
    Variance {
        realized_variance: i64::read(m, at),
        expected_prices: u16::read(m, at + 8),
        elapsed_returns: u16::read(m, at + 10),
        previous_settlement: Long::read_price(m, at + 12),
        discount_factor: i64::read(m, at + 20),
        initial_strike: Long::read_price(m, at + 28),
        previous_armvm: i64::read(m, at + 36),
        fed_funds_rate: i64::read(m, at + 44),
    }
}
