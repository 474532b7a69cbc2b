// Prices, kept in ten-thousandths, and quotes of a price and a quantity.
ghost use Rattle.std.specs.Prelude.{◌+◌, ◌≤◌, List, ℕ, ℤ, negsuc, pos, refl, length, ◌≤ℤ◌, ◌≡◌};
ghost use Rattle.wire_numbers.specs.Prices.{ShortPriceEnds, long_price, quote_at, short_price};
ghost use Rattle.wire_types.specs.Numbers.{le};

use crate::number::Number;
use wire_types::Quote;

/// A form of quotes: how many bytes a price and a quantity take, and what they say.
pub trait Form {
    /// Bytes of a price.
    const PRICE: usize;
    /// Bytes of a quote: a price and a quantity behind it.
    const QUOTE: usize;

    ghost PRICE: { ℕ };

    ghost QUOTE: { ℕ };

    // Bytes of a quantity.
    ghost quantity_width: { ℕ };

    // What the bytes from a place on say, as a price and as a quantity.
    ghost price: { List ℕ → ℕ → ℤ };

    ghost quantity: { List ℕ → ℕ → ℕ };

    /// A price, in ten-thousandths.
    fn read_price(m: &[u8], at: usize) -> i64
        requires { at + PRICE ≤ length m.now }
        ensures { result ≡ price m.now at };

    /// A quantity.
    fn read_quantity(m: &[u8], at: usize) -> u32
        requires { at + quantity_width ≤ length m.now }
        ensures { result ≡ quantity m.now at };

    /// A price and the quantity behind it.
    final fn read_quote(m: &[u8], at: usize) -> Quote
        requires { at + QUOTE ≤ length m.now }
        ensures { result ≡ quote_at price PRICE quantity m.now at }
    {
        Quote {
            price: Self::read_price(m, at),
            quantity: Self::read_quantity(m, at + Self::PRICE),
        }
    }

    // A quote has nothing else.
    ghost parts: { QUOTE ≡ PRICE + quantity_width };
}

/// Short quotes: two bytes of price, in hundredths, and two of quantity.
pub enum Short {}

impl Form for Short {
    const PRICE: usize = 2;

    const QUOTE: usize = 4;

    ghost PRICE = { 2 };

    ghost QUOTE = { 4 };

    ghost quantity_width = { 2 };

    ghost price = { short_price };

    ghost quantity = { le 2 };

    ghost parts = { refl };

    /// From -327.68 to 327.67.
    fn read_price(m: &[u8], at: usize) -> i64
        requires { at + 2 ≤ length m.now }
        ensures value { result ≡ short_price m.now at }
        ensures ends { ShortPriceEnds }
        ensures lowest { negsuc 3276799 ≤ℤ result }
        ensures highest { result ≤ℤ pos 3276700 }
    {
        i64::from(i16::read(m, at)) * 100
    }

    fn read_quantity(m: &[u8], at: usize) -> u32 {
        u32::from(u16::read(m, at))
    }
}

/// Long quotes: eight bytes of price, in ten-thousandths, and four of quantity.
pub enum Long {}

impl Form for Long {
    const PRICE: usize = 8;

    const QUOTE: usize = 12;

    ghost PRICE = { 8 };

    ghost QUOTE = { 12 };

    ghost quantity_width = { 4 };

    ghost price = { long_price };

    ghost quantity = { le 4 };

    ghost parts = { refl };

    fn read_price(m: &[u8], at: usize) -> i64 {
        i64::read(m, at)
    }

    fn read_quantity(m: &[u8], at: usize) -> u32 {
        u32::read(m, at)
    }
}
