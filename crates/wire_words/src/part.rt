// What several messages have in common: symbols, quotes and bytes.
ghost use Rattle.std.specs.Prelude.{Some};
ghost use Rattle.wire_words.specs.Bytes.{hex_byte, letter_words, symbol_words};
ghost use Rattle.wire_words.specs.Decimals.{quote_words};

use crate::decimal::price;
use std::fmt;
use wire_types::Quote;

/// A symbol in double quotes, by its six bytes.
#[derive(Clone, Copy)]
pub struct Symbol<'a>(pub &'a [u8; 6]);

impl fmt::Display for Symbol<'_> {
    ghost output = { λ x. Some (symbol_words x.0.now) };

    fn fmt<W: fmt::Write>(&self, f: &mut fmt::Formatter<W>) -> fmt::Result {
        let bytes = self.0.as_slice();
        f.write_str("\"")?;
        for byte in bytes {
            f.write_char(char::from(*byte))?;
        }
        f.write_str("\"")
    }
}

/// A price for a quantity, or none.
#[derive(Clone, Copy)]
pub struct ShownQuote(pub Quote);

impl fmt::Display for ShownQuote {
    ghost output = { λ x. Some (quote_words x.0) };

    fn fmt<W: fmt::Write>(&self, f: &mut fmt::Formatter<W>) -> fmt::Result {
        let Quote {
            price: value,
            quantity,
        } = self.0;
        if quantity == 0 {
            return f.write_str("none");
        }
        write!(f, "{} for {quantity}", price(value))
    }
}

/// A byte as two hex digits, lower case.
#[derive(Clone, Copy)]
pub struct HexByte(pub u8);

impl fmt::Display for HexByte {
    ghost output = { λ x. Some (hex_byte x.0) };

    fn fmt<W: fmt::Write>(&self, f: &mut fmt::Formatter<W>) -> fmt::Result {
        let byte = self.0;
        write!(f, "{byte:02x}")
    }
}

/// A byte as its character where it has one, else by its number.
#[derive(Clone, Copy)]
pub struct Letter(pub u8);

impl fmt::Display for Letter {
    ghost output = { λ x. Some (letter_words x.0) };

    fn fmt<W: fmt::Write>(&self, f: &mut fmt::Formatter<W>) -> fmt::Result {
        let byte = self.0;
        if byte.is_ascii_graphic() {
            f.write_char(char::from(byte))
        } else {
            write!(f, "0x{}", HexByte(byte))
        }
    }
}
