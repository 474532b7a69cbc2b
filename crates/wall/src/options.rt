// What the program is asked for.
use book::MOST_ROWS;

/// The symbols to follow.
#[derive(Clone, Copy)]
pub enum Follow {
    Every { rows: usize },
    One { symbol: [u8; 6] },
}

/// What the words of the command line say.
#[derive(Clone, Copy)]
pub struct Options<'a> {
    pub follow: Follow,
    pub file: Option<&'a str>,
}

/// Reads `[--rows N | --watch SYMBOL] [FILE]`; with neither word, every symbol is followed on as many rows as a board may have.
pub fn parse_options(words: &[String]) -> Option<Options<'_>> {
    let (follow, rest) = match words {
        [flag, rows, rest @ ..] if flag.as_str() == "--rows" => {
            let rows = parse_number(rows.as_str())?;
            (Follow::Every { rows }, rest)
        }
        [flag, symbol, rest @ ..] if flag.as_str() == "--watch" => {
            let symbol = parse_symbol(symbol.as_str())?;
            (Follow::One { symbol }, rest)
        }
        _ => (Follow::Every { rows: MOST_ROWS }, words),
    };
    match rest {
        [] => Some(Options { follow, file: None }),
        [file] if !file.as_str().starts_with("--") => Some(Options {
            follow,
            file: Some(file.as_str()),
        }),
        _ => None,
    }
}

/// The number that decimal digits write, or the largest if it is larger.
fn parse_number(digits: &str) -> Option<usize> {
    let is_number = !digits.is_empty() && digits.bytes().all(|b| b.is_ascii_digit());
    is_number.then(|| digits.parse().unwrap_or(usize::MAX))
}

/// The first six bytes of 1 to 6 characters, filled up with spaces. Only those that are no symbol have more bytes.
fn parse_symbol(text: &str) -> Option<[u8; 6]> {
    if !(1..=6).contains(&text.chars().count()) {
        return None;
    }
    let mut symbol = [b' '; 6];
    for (place, byte) in symbol.iter_mut().zip(text.bytes()) {
        *place = byte;
    }
    Some(symbol)
}
