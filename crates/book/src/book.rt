// What every kind of book shows.
ghost use Rattle.std.specs.Prelude.{◌≡◌, ◌≤◌, true, not, length, is_some, option_copied, Decides};
ghost use Rattle.market.specs.Market.{Kind, Market, View, applied, ascends, full_for, lookup, start, with_market};
ghost use Rattle.std.specs.Option.{unwrap_or};
ghost use Rattle.std.specs.List.{slice_get};

use market::{Clock, Row};

/// A book: a market, the symbols that it follows and how many rows it has room for, at least one. The last two never change.
/// By a rule of the project a question takes the book for writing, and fills a row that the caller lends.
pub trait Book {
    /// What the book means.
    ghost view: { Self → View Market Kind };

    /// The rows are never more than there is room for.
    ghost room: { (x : Self) → length (view x).market.rows ≤ (view x).kind.capacity };

    /// There is room for one row.
    ghost roomy: { (x : Self) → 1 ≤ (view x).kind.capacity };

    /// The rows stand in strictly ascending order of symbol.
    ghost ordered: { (x : Self) → ascends (view x).market.rows ≡ true };

    /// Gives the book the starting market.
    fn empty(&mut self)
        ensures { view self.new ≡ with_market (view self.old) start };

    /// Gives the book the market after the message in front of the bytes.
    /// Declines, with the market unchanged, exactly if the message would make a row and every row is in use.
    /// Bytes that break a rule of form, and messages for symbols that are not followed, change nothing.
    fn apply(&mut self, message: &[u8]) -> bool
        ensures answer { result ≡ not (full_for (view self.old) message.now) }
        ensures effect { view self.new ≡ applied (view self.old) message.now };

    /// Fills in the row of a symbol and tells whether there is one. Where there is none, the given row stays.
    fn find(&mut self, symbol: &[u8; 6], into: &mut Row) -> bool
        ensures answer { result ≡ is_some (lookup symbol.now (view self.old).market.rows) }
        ensures into { into.new ≡ unwrap_or (lookup symbol.now (view self.old).market.rows) into.old }
        ensures unchanged { self.new ≡ self.old };

    /// Fills in the row at a place from 0 and tells whether there is one. Where there is none, the given row stays.
    fn row_at(&mut self, place: usize, into: &mut Row) -> bool
        ensures answer { result ≡ is_some (slice_get (view self.old).market.rows place) }
        ensures into { into.new ≡ unwrap_or (slice_get (view self.old).market.rows place) into.old }
        ensures unchanged { self.new ≡ self.old };

    /// How many rows the market has.
    fn count(&mut self) -> usize
        ensures answer { result ≡ length (view self.old).market.rows }
        ensures unchanged { self.new ≡ self.old };

    /// The market's clock.
    fn clock(&mut self) -> Clock
        ensures answer { result ≡ (view self.old).market.clock }
        ensures unchanged { self.new ≡ self.old };

    /// Whether another book of this kind follows the same symbols.
    fn same(&mut self, other: &mut Self) -> bool
        ensures answer { Decides result ((view self.old).kind.follows ≡ (view other.old).kind.follows) }
        ensures unchanged { self.new ≡ self.old }
        ensures other_unchanged { other.new ≡ other.old };
}

/// Fills in the row that was found, if one was, and tells whether.
pub(crate) fn fill(found: Option<&Row>, into: &mut Row) -> bool
    ensures answer { result ≡ is_some found.entry }
    ensures into { into.new ≡ unwrap_or (option_copied found.entry) into.old }
{
    match found {
        Some(row) => {
            *into = *row;
            true
        }
        None => false,
    }
}
