// Books: what each kind of them shows, a board of many rows and a watch of one.
#![tactic(auto)]

mod board;
mod board_book;
mod book;
mod laws;
mod making;
mod refusal;
mod watch;
mod watch_book;

pub use board::Board;
pub use book::Book;
pub use laws::books_hold;
pub use making::{MOST_ROWS, check_rows};
pub use refusal::BookRefusal;
pub use watch::Watch;
