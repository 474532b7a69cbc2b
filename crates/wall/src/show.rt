// The market of a book, and what there was in the recording.
use crate::log::Total;
use book::Book;
use market::Row;
use std::alloc::{AllocError, Global};
use wall_words::{ClockLine, InstrumentsTable, QuotesTable, Table};

/// The clock, both tables and the last line. An empty line stands in front where anything was told before.
pub fn show_market<B: Book>(
    heap: Global,
    book: &mut B,
    total: Total,
) -> Result<String, AllocError> {
    let tally = total.tally;
    let told = tally.refused > 0 || total.declined > 0 || tally.not_understood > 0;
    let before = if told { "\n" } else { "" };
    let clock = book.clock();
    let quotes = show_table::<B, QuotesTable>(heap, book)?;
    let instruments = show_table::<B, InstrumentsTable>(heap, book)?;
    let last = last_line(heap, book.count(), total)?;
    format!(in heap;
        "{before}{}\n\n{quotes}\n{instruments}\n{last}\n",
        ClockLine(clock)
    )
}

fn show_table<B: Book, T: Table>(heap: Global, book: &mut B) -> Result<String, AllocError> {
    let mut text = T::heading(heap)?;
    let mut row = Row::blank();
    for place in 0..book.count() {
        if book.row_at(place, &mut row) {
            let line = T::line(heap, &row)?;
            text.push_str(line.as_str())?;
        }
    }
    Ok(text)
}

fn last_line(heap: Global, rows: usize, total: Total) -> Result<String, AllocError> {
    let Total {
        tally,
        without_number,
        declined,
    } = total;
    format!(in heap;
        "{rows} rows, {} blocks, {} accepted with {} messages, {} refused, {without_number} messages without a number, {declined} did not fit, {} lines not understood",
        tally.blocks(),
        tally.accepted,
        tally.messages,
        tally.refused,
        tally.not_understood,
    )
}
