// A reader over lent bytes, by where it stands.
ghost use Rattle.std.specs.Prelude.{◌≡◌, length};
ghost use Rattle.std.specs.Option.{option_map};
ghost use Rattle.wire_types.specs.Records.{meaning};
ghost use Rattle.wire_types.specs.Refusals.{answers};

use crate::parts::{decode_at, read_header};
use wire_types::{Block, Carrier, Fault, Header, Message};

/// Steps over blocks: `header` over a header, then `message` over each message behind it.
#[derive(Clone, Copy)]
pub struct Reader<'a> {
    carrier: Carrier,
    /// The bytes that have not been stepped over.
    ahead: &'a [u8],
    /// Messages of the block that was opened last.
    count: u8,
    /// Place of the next message.
    place: u8,
}

impl<'a> Reader<'a> {
    ghost use Rattle.wire_reader.specs.Reading.{standing, at_start, header_step, after_header, message_step, after_message};

    /// A reader in front of a block's header.
    pub fn new(block: Block<'a>) -> Reader<'a>
        ensures { standing result ≡ at_start block.entry.carrier block.entry.bytes.now }
    {
        Reader {
            carrier: block.carrier,
            ahead: block.bytes,
            count: 0,
            place: 0,
        }
    }

    /// How many bytes are ahead.
    pub fn left(&self) -> usize
        ensures { result ≡ length (standing self.now).ahead }
    {
        self.ahead.len()
    }

    /// Steps over a header, to the first message of its block. Refusal 4 leaves the reader where it stands.
    pub fn header(&mut self) -> Result<Header, Fault>
        ensures value { answers (λ h. h) result ≡ header_step (standing self.old) }
        ensures after { standing self.new ≡ after_header (standing self.old) }
    {
        let header = read_header(self.ahead)?;
        self.ahead = &self.ahead[8..];
        self.count = header.count;
        self.place = 0;
        Ok(header)
    }

    /// Steps over the next message of the block; none behind the last. A fault leaves the reader where it stands.
    pub fn message(&mut self) -> Result<Option<Message<'a>>, Fault>
        ensures value { answers (option_map meaning) result ≡ message_step (standing self.old) }
        ensures after { standing self.new ≡ after_message (standing self.old) }
    {
        if self.place >= self.count {
            return Ok(None);
        }
        let message = decode_at(self.carrier, self.place, self.ahead)?;
        self.ahead = &self.ahead[usize::from(self.ahead[0])..];
        self.place += 1;
        Ok(Some(message))
    }
}
