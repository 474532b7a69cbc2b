// A line of a recording.
ghost use Rattle.recording.specs.Faults.{fault_words};
ghost use Rattle.recording.specs.Hex.{hex_bytes};
ghost use Rattle.recording.specs.Lines.{Parsed, line_of, remark, unit_line, block_line};
ghost use Rattle.recording.specs.Units.{unit_number};
ghost use Rattle.recording.specs.declared.line.BadLine.TheVariants.{Memory};
ghost use Rattle.std.specs.Prelude.{◌≡◌, Some};

use crate::hex::bytes_of_hex;
use crate::text::{behind_word, skip_blanks};
use crate::unit::unit_number;
use std::alloc::{AllocError, AllocFailed, Global};
use std::fmt;
use wire_types::Carrier;

/// What a line says.
#[derive(Drop)]
pub enum Line {
    /// Nothing, or a remark.
    Blank,
    /// The unit that later blocks are checked against.
    Unit(u8),
    Block { carrier: Carrier, bytes: Vec<u8> },
}

/// Why a line says nothing.
#[derive(Clone, Copy, Debug, PartialEq, Eq)]
pub enum BadLine {
    Memory,
    NoHex,
    NoUnit,
}

impl From<AllocError> for BadLine {
    ghost from_gives = { λ _ r. r ≡ Memory };

    fn from(_e: AllocError) -> BadLine {
        BadLine::Memory
    }
}

impl<T: Drop> From<AllocFailed<T>> for BadLine {
    ghost from_gives = { λ _ r. r ≡ Memory };

    fn from(_e: AllocFailed<T>) -> BadLine {
        BadLine::Memory
    }
}

impl fmt::Display for BadLine {
    ghost output = { λ bad. Some (fault_words bad) };

    fn fmt<W: fmt::Write>(&self, f: &mut fmt::Formatter<W>) -> fmt::Result {
        match self {
            BadLine::Memory => f.write_str("no memory"),
            BadLine::NoHex => f.write_str("no hex"),
            BadLine::NoUnit => f.write_str("no unit"),
        }
    }
}

/// Reads a line, its end included or not. Blanks around it and between its words are of no account.
pub fn parse_line(heap: Global, line: &[u8]) -> Result<Line, BadLine>
    ensures { Parsed (line_of line.now) result }
{
    let text = skip_blanks(line);
    if is_remark(text) {
        return Ok(Line::Blank);
    }
    if let Some(rest) = behind_word(b"unit", text) {
        return parse_unit(rest);
    }
    if let Some(rest) = behind_word(b"spin", text) {
        return parse_block(heap, Carrier::Spin, rest);
    }
    if let Some(rest) = behind_word(b"datagram", text) {
        return parse_block(heap, Carrier::Datagram, rest);
    }
    parse_block(heap, Carrier::Datagram, text)
}

fn is_remark(text: &[u8]) -> bool
    ensures { result ≡ remark text.now }
{
    text.first().is_none_or(|b| *b == b'#')
}

fn parse_unit(text: &[u8]) -> Result<Line, BadLine>
    ensures { Parsed (unit_line (unit_number text.now)) result }
{
    unit_number(text).map(Line::Unit).ok_or(BadLine::NoUnit)
}

fn parse_block(heap: Global, carrier: Carrier, text: &[u8]) -> Result<Line, BadLine>
    ensures { Parsed (block_line carrier (hex_bytes text.now)) result }
{
    let bytes = bytes_of_hex(heap, text)?;
    Ok(Line::Block { carrier, bytes })
}
