// Why a book cannot be made.
ghost use Rattle.book.specs.Refusals.{refusal_words, told};
ghost use Rattle.std.specs.Prelude.{◌≡◌, Some};

use std::error::Error;
use std::fmt;

/// Why a book cannot be made; each case is a numbered refusal.
#[derive(Clone, Copy, Debug, PartialEq, Eq)]
pub enum BookRefusal {
    /// 2: a board is lent no row, or more than 4,096.
    RowCount,
    /// 10: a byte of a watch's symbol that no symbol may hold, the lowest.
    Symbol { byte: usize },
}

impl BookRefusal {
    /// The number by which the refusal is known.
    pub fn number(self) -> u8
        ensures { result ≡ (told self).number }
    {
        match self {
            BookRefusal::RowCount => 2,
            BookRefusal::Symbol { .. } => 10,
        }
    }
}

/// The number, and the byte where a symbol is at fault.
impl fmt::Display for BookRefusal {
    ghost output = { λ x. Some (refusal_words x) };

    fn fmt<W: fmt::Write>(&self, f: &mut fmt::Formatter<W>) -> fmt::Result {
        let number = self.number();
        match self {
            BookRefusal::RowCount => write!(f, "refused {number}"),
            BookRefusal::Symbol { byte } => write!(f, "refused {number} byte {byte}"),
        }
    }
}

impl Error for BookRefusal {}
