// The clock as a line.
ghost use Rattle.row_lines.specs.Rows.{clock_line};
ghost use Rattle.std.specs.Prelude.{Some};

use market::Clock;
use std::fmt;

/// What the feed has told of the time.
#[derive(Clone, Copy)]
pub struct ClockLine(pub Clock);

impl fmt::Display for ClockLine {
    ghost output = { λ x. Some (clock_line x.0) };

    fn fmt<W: fmt::Write>(&self, f: &mut fmt::Formatter<W>) -> fmt::Result {
        let Clock {
            seconds,
            epoch,
            midnight,
            trade_date,
        } = self.0;
        write!(
            f,
            "clock seconds {seconds} epoch {epoch} midnight {midnight} date {trade_date}"
        )
    }
}
