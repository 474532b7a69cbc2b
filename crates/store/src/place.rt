// Making and setting rows on a slice.
ghost use Rattle.std.specs.Prelude.{◌≡◌, ◌+◌, ◌<◌, ◌≤◌, ◌++◌, map, length, take, drop, replicate};
ghost use Rattle.market.specs.Aims.{does};
ghost use Rattle.market.specs.Effects.{blank, edited};
ghost use Rattle.std.specs.List.{insert};

use market::Row;
use wire_types::Message;

/// Puts a row at the place `at` of the first `count`, and those behind it one place up.
/// It takes the rows and their count side by side: as a method of a store its proof did not close.
pub(crate) fn insert(rows: &mut [Row], count: usize, at: usize, row: Row)
    requires place { at ≤ count }
    requires room { count < length rows.old }
    ensures { rows.new ≡ insert (take count rows.old) at row ++ drop (count + 1) rows.old }
{
    rows[count] = row;
    rows[at..count + 1].rotate_right(1);
}

/// Sets in each row what the message says.
pub(crate) fn edit_rows(rows: &mut [Row], message: &Message<'_>)
    ensures { rows.new ≡ map (edited (does message.now)) rows.old }
{
    for row in rows {
        row.edit(message);
    }
}

/// Blanks every row: a new row whose symbol is six spaces.
pub fn blank_rows(rows: &mut [Row])
    ensures { rows.new ≡ replicate (length rows.old) blank }
{
    rows.fill(Row::blank());
}
