// A book of one row.
ghost use Rattle.std.specs.Prelude.{◌≡◌};
ghost use Rattle.std.specs.Option.{ForSome};

use market::{Clock, Row};

/// A book that follows one symbol, with a row of its own.
#[derive(Drop)]
pub struct Watch {
    pub(crate) symbol: [u8; 6],
    pub(crate) row: Option<Row>,
    pub(crate) clock: Clock,
    ghost own: { ForSome row (λ r. r.symbol ≡ symbol) },
}
