// What a reader steps over: a header, a message.
ghost use Rattle.std.specs.Prelude.{◌≡◌, OnOk};
ghost use Rattle.wire_messages.specs.Rules.{Framed};
ghost use Rattle.wire_types.specs.Records.{meaning};
ghost use Rattle.wire_types.specs.Refusals.{answers, breach_of, refusal_of};
ghost use Rattle.wire_reader.specs.Reading.{header_at, message_at, placed};

use wire_messages::decode;
use wire_numbers::Number;
use wire_types::{Carrier, Fault, Flaw, Header, Layer, Message, Why};

/// The header in front of the bytes; refusal 4 where there are fewer than eight.
pub fn read_header(bytes: &[u8]) -> Result<Header, Fault>
    ensures { answers (λ h. h) result ≡ header_at bytes.now }
{
    if bytes.len() < 8 {
        return Err(Fault {
            why: Why::NoHeader,
            layer: Layer::Header,
            byte: 0,
        });
    }
    Ok(Header {
        length: u16::read(bytes, 0),
        count: bytes[2],
        unit: bytes[3],
        sequence: u32::read(bytes, 4),
    })
}

/// A message's flaw as a fault of its block: refusals 8 and 9 are the message's, 10 and 11 a field's.
fn fault_at(place: u8, flaw: Flaw) -> Fault
    ensures { refusal_of result ≡ placed place (breach_of flaw) }
{
    let Flaw { why, byte } = flaw;
    let layer = match why {
        Why::NoHeader
        | Why::BlockLength
        | Why::OtherUnit
        | Why::SequenceRange
        | Why::MessageLength
        | Why::BelowLeast => Layer::Message { place },
        Why::NotListed | Why::LegRule | Why::LeftOver => Layer::Field { place },
    };
    Fault { why, layer, byte }
}

/// The message that stands at a place in front of the bytes.
pub(crate) fn decode_at<'a>(
    carrier: Carrier,
    place: u8,
    bytes: &'a [u8],
) -> Result<Message<'a>, Fault>
    ensures value { answers meaning result ≡ message_at carrier place bytes.now }
    ensures framed { OnOk result (Framed bytes.now) }
{
    decode(carrier, bytes).map_err(|flaw| fault_at(place, flaw))
}
