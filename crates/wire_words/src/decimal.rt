// Numbers with decimal places.
ghost use Rattle.std.specs.Prelude.{◌≡◌, ◌≤◌, Some};
ghost use Rattle.std.specs.Fmt.{sign_text};
ghost use Rattle.std.specs.Int.{is_negative};
ghost use Rattle.wire_words.specs.Decimals.{decimal_words};

use std::fmt;

/// So many units of the last of `places` decimal places. At least one digit stands before the point.
#[derive(Clone, Copy)]
pub struct Decimal {
    pub value: i64,
    pub places: u32,
    ghost few: { places ≤ 19 },
}

/// A price, in ten-thousandths.
pub fn price(value: i64) -> Decimal
    ensures same { result.value ≡ value }
    ensures four { result.places ≡ 4 }
{
    Decimal { value, places: 4 }
}

impl fmt::Display for Decimal {
    ghost output = { λ x. Some (decimal_words x.places x.value) };

    fn fmt<W: fmt::Write>(&self, f: &mut fmt::Formatter<W>) -> fmt::Result {
        let sign = self.sign();
        let size = self.value.unsigned_abs();
        let unit = 10u64.pow(self.places);
        let (whole, rest) = (size / unit, size % unit);
        match self.places as usize {
            0 => write!(f, "{sign}{whole}."),
            places => write!(f, "{sign}{whole}.{rest:0places$}"),
        }
    }
}

impl Decimal {
    fn sign(self) -> &'static str
        ensures { result.now ≡ sign_text (is_negative self.value) }
    {
        if self.value < 0 { "-" } else { "" }
    }
}
