// How books are made: empty.
ghost use Rattle.std.specs.Prelude.{◌≡◌, ◌≤◌, length, replicate, OnOk};
ghost use Rattle.book.specs.Kinds.{board_kind, empty_view, rows_checked, watch_made};
ghost use Rattle.book.specs.Refusals.{told};
ghost use Rattle.book.specs.Views.{board_view, lent_rows, watch_view};
ghost use Rattle.market.specs.Effects.{blank};
ghost use Rattle.std.specs.Result.{result_map_both};

use crate::board::Board;
use crate::refusal::BookRefusal;
use crate::watch::Watch;
use market::{Clock, Row};
use store::Store;
use wire_fields::read_symbol;

/// Rows that a board has at most.
pub const MOST_ROWS: usize = 4096;

/// Whether a board can be made on these rows: refusal 2 unless there are 1 to 4,096 of them.
pub fn check_rows(rows: &[Row]) -> Result<(), BookRefusal>
    ensures answer { result_map_both (λ u. u) told result ≡ rows_checked (length rows.now) }
    ensures range { OnOk result ((1 ≤ length rows.now) × (length rows.now ≤ 4096)) }
{
    if rows.is_empty() || rows.len() > MOST_ROWS {
        return Err(BookRefusal::RowCount);
    }
    Ok(())
}

impl<'a> Board<'a> {
    /// An empty board on rows that `check_rows` accepts. All of them are blanked.
    pub fn new(rows: &'a mut [Row]) -> Board<'a>
        requires some { 1 ≤ length rows.old }
        requires few { length rows.old ≤ 4096 }
        ensures view { board_view result ≡ empty_view (board_kind (length rows.old)) }
        ensures rows { lent_rows result ≡ replicate (length rows.old) blank }
    {
        Board {
            store: Store::new(rows),
            clock: Clock::new(),
        }
    }
}

impl Watch {
    /// An empty watch of a symbol; refusal 10 if a byte of it is outside 0x20 to 0x7E.
    pub fn new(symbol: &[u8; 6]) -> Result<Watch, BookRefusal>
        ensures { result_map_both watch_view told result ≡ watch_made symbol.now }
    {
        read_symbol(symbol, 0).map_err(|flaw| BookRefusal::Symbol { byte: flaw.byte })?;
        Ok(Watch {
            symbol: *symbol,
            row: None,
            clock: Clock::new(),
        })
    }
}
