// The calls of a store.
ghost use Rattle.std.specs.Prelude.{◌≡◌, ◌≤◌, cond, not, map, length, drop, replicate, is_some};
ghost use Rattle.market.specs.Aims.{does};
ghost use Rattle.market.specs.Effects.{blank, edited};
ghost use Rattle.market.specs.Market.{lookup, upsert};
ghost use Rattle.std.specs.Option.{option_copied};
ghost use Rattle.std.specs.List.{slice_get};
ghost use Rattle.store.specs.Places.{position, sought};
ghost use Rattle.store.specs.Stores.{full, size, spare, used};

use crate::place::{blank_rows, edit_rows, insert};
use crate::store::Store;
use market::{Row, comes_before};
use wire_types::Message;

impl<'a> Store<'a> {
    /// A store with no row in use. All rows that are lent are blanked.
    pub fn new(rows: &'a mut [Row]) -> Store<'a>
        ensures rows { result.rows.now ≡ replicate (length rows.old) blank }
        ensures count { result.count ≡ 0 }
    {
        blank_rows(rows);
        Store { rows, count: 0 }
    }
}

impl Store<'_> {
    /// How many rows are in use.
    pub fn count(&self) -> usize
        ensures { result ≡ length (used self.now) }
    {
        self.used().len()
    }

    /// The rows in use.
    fn used(&self) -> &[Row]
        ensures { result.now ≡ used self.now }
    {
        &self.rows[..self.count]
    }

    /// How many rows in use stand before the symbol.
    fn place(&self, symbol: &[u8; 6]) -> usize
        ensures { result ≡ position symbol.now (used self.now) }
    {
        self.used()
            .partition_point(|row| comes_before(&row.symbol, symbol))
    }

    /// The symbol's place among the rows in use: `Ok` where its row stands, or `Err` where it would stand.
    fn seek(&self, symbol: &[u8; 6]) -> Result<usize, usize>
        ensures { result ≡ sought symbol.now (used self.now) }
    {
        let at = self.place(symbol);
        match self.used().get(at) {
            Some(row) if row.symbol == *symbol => Ok(at),
            _ => Err(at),
        }
    }

    /// The symbol's row, if it has one.
    pub fn find(&self, symbol: &[u8; 6]) -> Option<&Row>
        ensures { option_copied result ≡ lookup symbol.now (used self.now) }
    {
        let at = self.seek(symbol).ok()?;
        self.row_at(at)
    }

    /// The row at a place, if one is in use there.
    pub fn row_at(&self, place: usize) -> Option<&Row>
        ensures { option_copied result ≡ slice_get (used self.now) place }
    {
        self.used().get(place)
    }

    /// Sets what the message says in the symbol's row, which is made if there is none.
    /// Declines if it has to be made and each row is in use.
    pub fn edit_one(&mut self, symbol: &[u8; 6], message: &Message<'_>) -> bool
        ensures answer { result ≡ not (full symbol.now self.old) }
        ensures used { used self.new ≡ cond (full symbol.now self.old) (used self.old) (upsert symbol.now (edited (does message.now)) (used self.old)) }
        ensures spare { spare self.new ≡ drop self.new.count self.old.rows.now }
        ensures size { size self.new ≡ size self.old }
        ensures grows { self.old.count ≤ self.new.count }
    {
        match self.seek(symbol) {
            Ok(at) => {
                let rows = &mut *self.rows;
                rows[at].edit(message);
                true
            }
            Err(at) => {
                let count = self.count;
                if count == self.rows.len() {
                    return false;
                }
                let mut row = Row::new(symbol);
                row.edit(message);
                insert(self.rows, count, at, row);
                self.count = count + 1;
                true
            }
        }
    }

    /// Sets what the message says in each row in use.
    pub fn edit_all(&mut self, message: &Message<'_>)
        ensures used { used self.new ≡ map (edited (does message.now)) (used self.old) }
        ensures spare { spare self.new ≡ spare self.old }
        ensures count { self.new.count ≡ self.old.count }
        ensures size { size self.new ≡ size self.old }
    {
        let rows = &mut *self.rows;
        edit_rows(&mut rows[..self.count], message);
    }

    /// Blanks every row, so that none is in use.
    pub fn clear(&mut self)
        ensures rows { self.new.rows.now ≡ replicate (size self.old) blank }
        ensures count { self.new.count ≡ 0 }
    {
        self.count = 0;
        blank_rows(self.rows);
    }
}
