// Symbols: six printable bytes.
ghost use Rattle.std.specs.Prelude.{◌≡◌, ◌+◌, ◌≤◌, length, not};
ghost use Rattle.std.specs.List.{position};
ghost use Rattle.wire_fields.specs.Symbols.{printable, symbol_at};
ghost use Rattle.wire_types.specs.Refusals.{reads};

use crate::code::not_listed;
use wire_numbers::bytes_at;
use wire_types::Flaw;

/// The symbol from `at` on, lent from the message; or its first byte that no symbol may hold.
#[tactic(auto, using(crate::proofs::Searches::first_found))]
pub fn read_symbol<'a>(m: &'a [u8], at: usize) -> Result<&'a [u8; 6], Flaw>
    requires { at + 6 ≤ length m.now }
    ensures { reads (λ x. x.now) result ≡ symbol_at m.now at }
{
    let symbol = bytes_at(m, at);
    match first_bad(symbol) {
        Some(i) => Err(not_listed(at + i)),
        None => Ok(symbol),
    }
}

/// The place of the first byte that no symbol may hold.
fn first_bad(symbol: &[u8; 6]) -> Option<usize>
    ensures { result ≡ position (λ b. not (printable b)) symbol.now }
{
    symbol.iter().position(|b| !is_printable(*b))
}

fn is_printable(b: u8) -> bool
    ensures { result ≡ printable b }
{
    matches!(b, 0x20..=0x7e)
}
