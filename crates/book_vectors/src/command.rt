// A line of the script.
use crate::making::Making;
use recording::{BadLine, bytes_of_hex};
use std::alloc::Global;

/// What a line asks for.
#[derive(Drop)]
pub enum Command {
    Make(Making),
    Ask(Question),
}

/// What is asked of the book at hand.
#[derive(Drop)]
pub enum Question {
    Empty,
    Apply { message: Vec<u8> },
    Find { symbol: [u8; 6] },
    Row { place: usize },
    Show,
}

/// Why a line asks for nothing.
#[derive(Clone, Copy)]
pub enum BadCommand {
    Memory,
    NotUnderstood,
}

impl From<BadLine> for BadCommand {
    fn from(bad: BadLine) -> BadCommand {
        match bad {
            BadLine::Memory => BadCommand::Memory,
            _ => BadCommand::NotUnderstood,
        }
    }
}

/// Reads a line: a word, and what it goes with.
pub fn parse_command(heap: Global, line: &str) -> Result<Command, BadCommand> {
    let (word, rest) = first_word(line.trim());
    match word {
        "board" => Ok(Command::Make(Making::Board {
            rows: parse_count(rest)?,
        })),
        "watch" => Ok(Command::Make(Making::Watch {
            symbol: parse_symbol(heap, rest)?,
        })),
        "empty" if rest.is_empty() => Ok(Command::Ask(Question::Empty)),
        "apply" => Ok(Command::Ask(Question::Apply {
            message: bytes_of_hex(heap, rest.as_bytes())?,
        })),
        "find" => Ok(Command::Ask(Question::Find {
            symbol: parse_symbol(heap, rest)?,
        })),
        "row" => Ok(Command::Ask(Question::Row {
            place: parse_number(rest)?,
        })),
        "show" if rest.is_empty() => Ok(Command::Ask(Question::Show)),
        _ => Err(BadCommand::NotUnderstood),
    }
}

fn first_word(line: &str) -> (&str, &str) {
    match line.split_once([' ', '\t']) {
        Some((word, rest)) => (word, rest.trim_start()),
        None => (line, ""),
    }
}

/// A number of at most five digits.
fn parse_count(digits: &str) -> Result<usize, BadCommand> {
    if digits.len() > 5 {
        return Err(BadCommand::NotUnderstood);
    }
    parse_number(digits)
}

/// A number in digits alone, where `parse` would take a sign.
fn parse_number(digits: &str) -> Result<usize, BadCommand> {
    if digits.starts_with('+') {
        return Err(BadCommand::NotUnderstood);
    }
    digits.parse().map_err(|_| BadCommand::NotUnderstood)
}

fn parse_symbol(heap: Global, hex: &str) -> Result<[u8; 6], BadCommand> {
    let bytes = bytes_of_hex(heap, hex.as_bytes())?;
    <[u8; 6]>::try_from(bytes.as_slice()).map_err(|_| BadCommand::NotUnderstood)
}
