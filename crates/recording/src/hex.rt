// Bytes written as pairs of hex digits.
ghost use Rattle.recording.specs.Hex.{nibble_of, pair_of, Decodes};
ghost use Rattle.std.specs.Prelude.{◌≡◌, ◌<◌, IfSome};

use crate::line::BadLine;
use crate::text::skip_blanks;
use std::alloc::Global;

/// The value of a hex digit of either case.
pub fn nibble(digit: u8) -> Option<u8>
    ensures value { result ≡ nibble_of digit }
    ensures small { IfSome result (λ d. d < 16) }
{
    match digit {
        b'0'..=b'9' => Some(digit - b'0'),
        b'A'..=b'F' => Some(digit - b'A' + 10),
        b'a'..=b'f' => Some(digit - b'a' + 10),
        _ => None,
    }
}

/// The bytes that a text writes, each as two digits that stand together, with blanks between them.
pub fn bytes_of_hex(heap: Global, text: &[u8]) -> Result<Vec<u8>, BadLine>
    ensures { Decodes text.now result }
{
    let mut bytes = Vec::new(heap);
    let mut rest = skip_blanks(text);
    while let [first, second, tail @ ..] = rest {
        bytes.push(pair(*first, *second).ok_or(BadLine::NoHex)?)?;
        rest = skip_blanks(tail);
    }
    if !rest.is_empty() {
        return Err(BadLine::NoHex);
    }
    Ok(bytes)
}

fn pair(high: u8, low: u8) -> Option<u8>
    ensures { result ≡ pair_of (nibble_of high) (nibble_of low) }
{
    Some(nibble(high)? * 16 + nibble(low)?)
}
