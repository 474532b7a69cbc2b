// Symbols in hex digits.
ghost use Rattle.std.specs.Prelude.{Some};
ghost use Rattle.row_lines.specs.Hex.{hex_symbol};

use std::fmt;
use wire_words::HexByte;

/// A symbol by its six bytes.
#[derive(Clone, Copy)]
pub(crate) struct HexSymbol(pub(crate) [u8; 6]);

impl fmt::Display for HexSymbol {
    ghost output = { λ x. Some (hex_symbol x.0) };

    fn fmt<W: fmt::Write>(&self, f: &mut fmt::Formatter<W>) -> fmt::Result {
        for byte in self.0 {
            HexByte(byte).fmt(f)?;
        }
        Ok(())
    }
}
