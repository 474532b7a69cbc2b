// A book on lent rows.
ghost use Rattle.std.specs.Prelude.{◌≡◌, ◌-◌, ◌≤◌, replicate};
ghost use Rattle.market.specs.Effects.{blank};
ghost use Rattle.store.specs.Stores.{size, spare};

use market::Clock;
use store::Store;

/// A book that follows every symbol, on 1 to 4,096 rows that are lent. Rows past those in use are blank.
#[derive(Drop)]
pub struct Board<'a> {
    pub(crate) store: Store<'a>,
    pub(crate) clock: Clock,
    ghost some: { 1 ≤ size store },
    ghost few: { size store ≤ 4096 },
    ghost rest: { ∥ spare store ≡ replicate (size store - store.count) blank ∥₁ },
}
