// The number of a unit in decimal digits.
ghost use Rattle.std.specs.Prelude.{◌≡◌, ◌<◌, IfSome};
ghost use Rattle.recording.specs.Units.{unit_number, more_digits, appended_digit, digit_of};

use crate::text::{is_blank, skip_blanks};

/// The number from 0 to 255 that the text writes in digits, with blanks around it.
pub(crate) fn unit_number(text: &[u8]) -> Option<u8>
    ensures { result ≡ unit_number text.now }
{
    let (first, rest) = skip_blanks(text).split_first()?;
    more_digits(digit_value(*first)?, rest)
}

/// A number with the digits that go on, up to a blank behind which nothing but blanks may stand.
/// What stands behind the first byte that will not do is not looked at.
fn more_digits(first: u8, text: &[u8]) -> Option<u8>
    ensures { result ≡ more_digits first text.now }
{
    let mut number = first;
    for (place, byte) in text.iter().enumerate() {
        if is_blank(*byte) {
            return skip_blanks(&text[place..]).is_empty().then_some(number);
        }
        number = appended(number, *byte)?;
    }
    Some(number)
}

fn appended(number: u8, digit: u8) -> Option<u8>
    ensures { result ≡ appended_digit number (digit_of digit) }
{
    number.checked_mul(10)?.checked_add(digit_value(digit)?)
}

fn digit_value(digit: u8) -> Option<u8>
    ensures value { result ≡ digit_of digit }
    ensures small { IfSome result (λ d. d < 10) }
{
    digit.checked_sub(b'0').filter(|value| *value < 10)
}
