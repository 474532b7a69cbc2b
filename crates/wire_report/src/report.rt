// What is to be said of a block.
ghost use Rattle.std.specs.Prelude.{◌≡◌, ◌++◌, IfOk, string_bytes, codes};
ghost use Rattle.wire.specs.Blocks.{checked_for};
ghost use Rattle.wire_words.specs.Lines.{header_words};
ghost use Rattle.wire_report.specs.Reports.{Accepts, Refuses, Reports};
ghost use Rattle.wire_types.specs.Refusals.{refusal_of};

use std::alloc::{AllocError, Global};
use wire::check_for;
use wire_reader::Reader;
use wire_show::Shown;
use wire_types::{Block, Fault, Header, Message};

/// A block in words.
#[derive(Drop)]
pub struct Report {
    /// Lines, each ended by a newline: the refusal alone, or the header and each message.
    pub text: String,
    /// How many messages the block brings, if it is accepted.
    pub messages: Option<u8>,
}

/// Checks a block against a unit, or else against the one that its own header names, and says what it holds.
pub fn describe(heap: Global, unit: Option<u8>, block: Block<'_>) -> Result<Report, AllocError>
    ensures { IfOk result (λ p. Reports (checked_for block.entry.carrier unit block.entry.bytes.now) p) }
{
    match check_for(unit, block) {
        Ok(header) => accepted(heap, header, block),
        Err(fault) => refused(heap, fault),
    }
}

fn refused(heap: Global, fault: Fault) -> Result<Report, AllocError>
    ensures { IfOk result (λ p. Refuses (refusal_of fault) p) }
{
    Ok(Report {
        text: format!(in heap; "{fault}\n")?,
        messages: None,
    })
}

/// Says what a block holds that was accepted with its header, so that each of its messages can be read.
fn accepted(heap: Global, header: Header, block: Block<'_>) -> Result<Report, AllocError>
    ensures { IfOk result (λ p. Accepts header p) }
{
    let mut text = header_line(heap, header)?;
    let mut reader = Reader::new(block);
    let _ = reader.header();
    for place in 0..header.count {
        let Ok(Some(message)) = reader.message() else {
            break;
        };
        let line = message_line(heap, header.sequence, place, message)?;
        text.push_str(line.as_str())?;
    }
    Ok(Report {
        text,
        messages: Some(header.count),
    })
}

fn header_line(heap: Global, header: Header) -> Result<String, AllocError>
    ensures { IfOk result (λ s. string_bytes s ≡ header_words header ++ codes "\n") }
{
    let Header {
        length,
        count,
        unit,
        sequence,
    } = header;
    format!(in heap; "header length {length}, count {count}, unit {unit}, sequence {sequence}\n")
}

fn message_line(
    heap: Global,
    sequence: u32,
    place: u8,
    message: Message<'_>,
) -> Result<String, AllocError> {
    if sequence == 0 {
        return format!(in heap; "message {place}: {}\n", Shown(message));
    }
    let number = u64::from(sequence) + u64::from(place);
    format!(in heap; "message {place}, number {number}: {}\n", Shown(message))
}
