// The clock in words.
ghost use Rattle.std.specs.Prelude.{Some};
ghost use Rattle.wall_words.specs.Cells.{clock_words};

use market::Clock;
use std::fmt;

/// What the feed has told of the time, on one line.
#[derive(Clone, Copy)]
pub struct ClockLine(pub Clock);

impl fmt::Display for ClockLine {
    ghost output = { λ x. Some (clock_words x.0) };

    fn fmt<W: fmt::Write>(&self, f: &mut fmt::Formatter<W>) -> fmt::Result {
        let Clock {
            seconds,
            epoch,
            midnight,
            trade_date,
        } = self.0;
        write!(
            f,
            "clock: {seconds} seconds, epoch {epoch}, midnight {midnight}, trade date {trade_date}"
        )
    }
}
