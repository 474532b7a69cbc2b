// What a book answers, as lines.
use crate::command::Question;
use book::Book;
use market::Row;
use row_lines::{ClockLine, RowLine};
use std::alloc::{AllocError, Global};

/// Puts a question to a book, and says what it answers, each line with its end.
pub fn answer<B: Book>(
    heap: Global,
    book: &mut B,
    question: Question,
) -> Result<String, AllocError> {
    match question {
        Question::Empty => {
            book.empty();
            String::from_str(heap, "emptied\n")
        }
        Question::Apply { message } => {
            let fits = book.apply(message.as_slice());
            String::from_str(heap, if fits { "applied\n" } else { "full\n" })
        }
        Question::Find { symbol } => {
            let mut row = Row::blank();
            row_line(heap, book.find(&symbol, &mut row).then_some(&row))
        }
        Question::Row { place } => row_at(heap, book, place),
        Question::Show => show(heap, book),
    }
}

fn row_at<B: Book>(heap: Global, book: &mut B, place: usize) -> Result<String, AllocError> {
    let mut row = Row::blank();
    row_line(heap, book.row_at(place, &mut row).then_some(&row))
}

fn row_line(heap: Global, row: Option<&Row>) -> Result<String, AllocError> {
    match row {
        Some(row) => format!(in heap; "{}\n", RowLine(row)),
        None => String::from_str(heap, "none\n"),
    }
}

/// The clock, how many rows there are, and each of them.
fn show<B: Book>(heap: Global, book: &mut B) -> Result<String, AllocError> {
    let clock = book.clock();
    let count = book.count();
    let mut text = format!(in heap; "{}\nrows {count}\n", ClockLine(clock))?;
    for place in 0..count {
        text.push_str(row_at(heap, book, place)?.as_str())?;
    }
    Ok(text)
}
