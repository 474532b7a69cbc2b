// Codes of one byte, each from a closed list.
ghost use Rattle.std.specs.Prelude.{◌≡◌, ◌<◌, length};
ghost use Rattle.wire_fields.specs.Codes.{code_at};
ghost use Rattle.wire_types.specs.Refusals.{reads, breach, breach_of};

use wire_types::{Code, Flaw, Why};

/// The code at a byte; or that byte, where it stands for none of the list.
// Inlined, so that its answer is not written to memory and read from there again.
#[inline(always)]
pub fn read_code<C: Code>(m: &[u8], at: usize) -> Result<C, Flaw>
    requires { at < length m.now }
    ensures { reads (λ x. x) result ≡ code_at C.of_byte m.now at }
{
    C::try_from(m[at]).map_err(|_| not_listed(at))
}

pub(crate) fn not_listed(byte: usize) -> Flaw
    ensures { breach_of result ≡ breach 10 byte }
{
    Flaw {
        why: Why::NotListed,
        byte,
    }
}
