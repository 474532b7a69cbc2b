// Rows that are lent, in ascending order of symbol.
ghost use Rattle.market.specs.Market.{ascends};
ghost use Rattle.std.specs.Prelude.{◌≡◌, ◌≤◌, true, length, take};

use market::Row;

/// Rows that are lent, of which the first `count` are in use and ascend.
#[derive(Drop)]
pub struct Store<'a> {
    pub rows: &'a mut [Row],
    pub count: usize,
    pub ghost within: { count ≤ length rows.now },
    pub ghost sorted: { ascends (take count rows.now) ≡ true },
}
