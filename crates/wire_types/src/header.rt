// What stands in front of a block's messages.
ghost use Rattle.std.specs.Prelude.{◌≡◌, Some};
ghost use Rattle.wire_types.specs.Words.{carrier_word};

use std::fmt;

/// What brings a block: a datagram of the feed or of gap replay, or a spin.
/// The three spin messages are known in spin blocks only.
#[derive(Clone, Copy, Debug, PartialEq, Eq)]
pub enum Carrier {
    Datagram,
    Spin,
}

impl Carrier {
    /// The words by which a block that comes so is told.
    pub fn word(self) -> &'static str
        ensures { result.now ≡ carrier_word self }
    {
        match self {
            Carrier::Datagram => "datagram",
            Carrier::Spin => "spin block",
        }
    }
}

impl fmt::Display for Carrier {
    ghost output = { λ x. Some (carrier_word x) };

    fn fmt<W: fmt::Write>(&self, f: &mut fmt::Formatter<W>) -> fmt::Result {
        f.write_str(self.word())
    }
}

/// A block as it comes: its bytes, and what brings them.
#[derive(Clone, Copy)]
pub struct Block<'a> {
    pub carrier: Carrier,
    pub bytes: &'a [u8],
}

/// The Sequenced Unit Header.
#[derive(Clone, Copy, Debug, PartialEq, Eq)]
pub struct Header {
    /// Bytes of the block, these eight included.
    pub length: u16,
    /// Messages behind the header.
    pub count: u8,
    pub unit: u8,
    /// Number of the first message; 0 where the messages have none.
    pub sequence: u32,
}
