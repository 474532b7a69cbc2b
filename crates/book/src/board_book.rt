// A board as a book.
ghost use Rattle.book.specs.Views.{board_ordered, board_room, board_roomy, board_view};

use crate::board::Board;
use crate::book::{Book, fill};
use market::{Clock, Row, Target, hear};

impl Book for Board<'_> {
    ghost view = { board_view };

    ghost room = { board_room };

    ghost roomy = { board_roomy };

    ghost ordered = { board_ordered };

    fn empty(&mut self) {
        self.store.clear();
        self.clock = Clock::new();
    }

    fn apply(&mut self, message: &[u8]) -> bool {
        let message = hear(message);
        match Target::of(&message) {
            Target::Nothing => true,
            Target::Clock => {
                self.clock.tick(&message);
                true
            }
            Target::EveryRow => {
                self.store.edit_all(&message);
                true
            }
            Target::Row(symbol) => self.store.edit_one(symbol, &message),
        }
    }

    fn find(&mut self, symbol: &[u8; 6], into: &mut Row) -> bool {
        fill(self.store.find(symbol), into)
    }

    fn row_at(&mut self, place: usize, into: &mut Row) -> bool {
        fill(self.store.row_at(place), into)
    }

    fn count(&mut self) -> usize {
        self.store.count()
    }

    fn clock(&mut self) -> Clock {
        self.clock
    }

    fn same(&mut self, _other: &mut Self) -> bool {
        true
    }
}
