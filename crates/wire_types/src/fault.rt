// Why bytes are refused.
ghost use Rattle.std.specs.Prelude.{◌≡◌, Some};
ghost use Rattle.wire_types.specs.Refusals.{number_of, refusal_of};
ghost use Rattle.wire_types.specs.Words.{told};

use std::error::Error;
use std::fmt;

/// What is wrong with the bytes; each case is a numbered refusal.
#[derive(Clone, Copy, Debug, PartialEq, Eq)]
pub enum Why {
    /// 4: a block of under 8 bytes.
    NoHeader,
    /// 5: Hdr Length is not the number of bytes at hand.
    BlockLength,
    /// 6: another unit's block.
    OtherUnit,
    /// 7: Hdr Sequence is out of range.
    SequenceRange,
    /// 8: a message's Length is missing, below 2 or past the block's end.
    MessageLength,
    /// 9: a known type is shorter than its table.
    BelowLeast,
    /// 10: a byte of a symbol, or a code, is outside its list.
    NotListed,
    /// 11: a definition breaks the rule for legs and variance.
    LegRule,
    /// 12: bytes remain behind the last message.
    LeftOver,
}

impl Why {
    /// The number by which the refusal is known.
    pub fn number(self) -> u8
        ensures { result ≡ number_of self }
    {
        match self {
            Why::NoHeader => 4,
            Why::BlockLength => 5,
            Why::OtherUnit => 6,
            Why::SequenceRange => 7,
            Why::MessageLength => 8,
            Why::BelowLeast => 9,
            Why::NotListed => 10,
            Why::LegRule => 11,
            Why::LeftOver => 12,
        }
    }
}

/// A fault inside one message, by the byte of the message.
#[derive(Clone, Copy, Debug, PartialEq, Eq)]
pub struct Flaw {
    pub why: Why,
    pub byte: usize,
}

/// Where a fault was met; `place` is the message's, from 0.
#[derive(Clone, Copy, Debug, PartialEq, Eq)]
pub enum Layer {
    Header,
    Message { place: u8 },
    Field { place: u8 },
}

/// A fault of a block. `byte` counts from the block's start in the header's layer, else from the message's.
#[derive(Clone, Copy, Debug, PartialEq, Eq)]
pub struct Fault {
    pub why: Why,
    pub layer: Layer,
    pub byte: usize,
}

/// The refusal's number, the layer that it was met in and the byte.
impl fmt::Display for Fault {
    ghost output = { λ x. Some (told (refusal_of x)) };

    fn fmt<W: fmt::Write>(&self, f: &mut fmt::Formatter<W>) -> fmt::Result {
        let Fault { why, layer, byte } = self;
        let number = why.number();
        match layer {
            Layer::Header => write!(f, "refused {number} header byte {byte}"),
            Layer::Message { place } => write!(
                f,
                "refused {number} message place {place} byte {byte}"
            ),
            Layer::Field { place } => write!(f, "refused {number} field place {place} byte {byte}"),
        }
    }
}

impl Error for Fault {}
