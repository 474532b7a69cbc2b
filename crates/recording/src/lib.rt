// A recording of blocks as text: one block a line, as hex digits.
#![tactic(auto)]

mod collecting;
mod hex;
mod line;
mod listening;
mod tally;
mod text;
mod unit;

pub use collecting::Collector;
pub use hex::{bytes_of_hex, nibble};
pub use line::{BadLine, Line, parse_line};
pub use listening::{Heard, Listener, PIECE, Recording};
pub use tally::Tally;
