// How the books of a script are made.
ghost use Rattle.std.specs.Prelude.{◌≤◌, vec_len};

use book::{BookRefusal, Watch, check_rows};
use market::Row;
use std::alloc::{AllocError, Global};

/// A book to make.
#[derive(Clone, Copy)]
pub enum Making {
    Board { rows: usize },
    Watch { symbol: [u8; 6] },
}

/// Rows that a board can be made on.
#[derive(Drop)]
pub struct Rows {
    pub rows: Vec<Row>,
    ghost some: { 1 ≤ vec_len rows },
    ghost few: { vec_len rows ≤ 4096 },
}

/// What a book is made of.
#[derive(Drop)]
pub enum Made {
    Board(Rows),
    Watch(Watch),
}

/// Why a book is not made.
#[derive(Debug, Drop)]
pub enum NotMade {
    Memory(AllocError),
    Refused(BookRefusal),
}

impl From<AllocError> for NotMade {
    fn from(e: AllocError) -> NotMade {
        NotMade::Memory(e)
    }
}

impl From<BookRefusal> for NotMade {
    fn from(refusal: BookRefusal) -> NotMade {
        NotMade::Refused(refusal)
    }
}

impl Making {
    pub fn make(self, heap: Global) -> Result<Made, NotMade> {
        match self {
            Making::Board { rows } => {
                let rows = vec![in heap; Row::blank(); rows]?;
                check_rows(rows.as_slice())?;
                Ok(Made::Board(Rows { rows }))
            }
            Making::Watch { symbol } => Ok(Made::Watch(Watch::new(&symbol)?)),
        }
    }
}
