// A watch as a book.
ghost use Rattle.book.specs.Views.{watch_ordered, watch_room, watch_view};
ghost use Rattle.market.specs.Aims.{does};
ghost use Rattle.market.specs.Effects.{edited, new_row};
ghost use Rattle.std.proofs.Common.{lit≤};
ghost use Rattle.std.specs.Prelude.{◌≡◌, Decides};

use crate::book::{Book, fill};
use crate::watch::Watch;
use market::{Clock, Row, Target, hear};
use wire_types::Message;

impl Book for Watch {
    ghost view = { watch_view };

    ghost room = { watch_room };

    ghost roomy = { λ _. lit≤ tt };

    ghost ordered = { watch_ordered };

    fn empty(&mut self) {
        self.row = None;
        self.clock = Clock::new();
    }

    fn apply(&mut self, message: &[u8]) -> bool {
        let message = hear(message);
        match Target::of(&message) {
            Target::Nothing => {}
            Target::Clock => self.clock.tick(&message),
            Target::EveryRow => {
                if let Some(row) = &mut self.row {
                    row.edit(&message);
                }
            }
            Target::Row(symbol) => {
                if self.follows(symbol) {
                    match &mut self.row {
                        Some(row) => row.edit(&message),
                        None => self.row = Some(make(symbol, &message)),
                    }
                }
            }
        }
        true
    }

    fn find(&mut self, symbol: &[u8; 6], into: &mut Row) -> bool {
        self.follows(symbol) && fill(self.row.as_ref(), into)
    }

    fn row_at(&mut self, place: usize, into: &mut Row) -> bool {
        place == 0 && fill(self.row.as_ref(), into)
    }

    fn count(&mut self) -> usize {
        usize::from(self.row.is_some())
    }

    fn clock(&mut self) -> Clock {
        self.clock
    }

    fn same(&mut self, other: &mut Self) -> bool {
        self.follows(&other.symbol)
    }
}

impl Watch {
    /// Whether the watch follows the symbol.
    fn follows(&self, symbol: &[u8; 6]) -> bool
        ensures { Decides result (self.now.symbol ≡ symbol.now) }
    {
        self.symbol == *symbol
    }
}

/// A new row of the symbol, with what the message says.
fn make(symbol: &[u8; 6], message: &Message<'_>) -> Row
    ensures { result ≡ edited (does message.now) (new_row symbol.now) }
{
    let mut row = Row::new(symbol);
    row.edit(message);
    row
}
