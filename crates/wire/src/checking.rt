// The check of a whole block: every refusal of 4 to 12 before anything is done with it.
ghost use Rattle.wire_types.specs.Refusals.{answers, number_of, refusal, refusal_of};
ghost use Rattle.wire.specs.Blocks.{checked, checked_for, header_rules, for_unit, in_range, left_behind};
ghost use Rattle.wire.specs.Laws.{Accepted, FirstFault};
ghost use Rattle.wire_reader.specs.Reading.{standing};
ghost use Rattle.wire_types.specs.declared.fault.Layer.TheVariants as the_layer;
ghost use Rattle.std.specs.Option.{unwrap_or};
ghost use Rattle.std.specs.Prelude.{◌≡◌, length, MatchResult, slice_index};

use wire_reader::Reader;
use wire_types::{Block, Carrier, Fault, Header, Layer, Why};

/// Accepts a block of the unit with its header, or tells the first fault.
// Inlined, as `check_for` and `check_block` are, so that what a caller knows of the carrier and the unit is not asked again.
#[inline(always)]
pub fn check(unit: u8, block: Block<'_>) -> Result<Header, Fault>
    ensures value { answers (λ h. h) result ≡ checked block.entry.carrier unit block.entry.bytes.now }
    ensures law { MatchResult result (λ h. Accepted block.entry.carrier unit block.entry.bytes.now h) (λ f. FirstFault block.entry.carrier unit block.entry.bytes.now (refusal_of f)) }
{
    check_block(unit, block)
}

/// Accepts a block of the unit, or else of the one that its own header names.
#[inline(always)]
pub fn check_for(unit: Option<u8>, block: Block<'_>) -> Result<Header, Fault>
    ensures value { answers (λ h. h) result ≡ checked_for block.entry.carrier unit block.entry.bytes.now }
    ensures law { MatchResult result (λ h. Accepted block.entry.carrier (unwrap_or unit (slice_index block.entry.bytes.now 3)) block.entry.bytes.now h) (λ f. FirstFault block.entry.carrier (unwrap_or unit (slice_index block.entry.bytes.now 3)) block.entry.bytes.now (refusal_of f)) }
{
    check(unit.unwrap_or(own_unit(block)), block)
}

/// Hdr Unit, or 0 in a block that ends before it.
fn own_unit(block: Block<'_>) -> u8
    ensures { result ≡ slice_index block.entry.bytes.now 3 }
{
    block.bytes.get(3).copied().unwrap_or(0)
}

#[inline(always)]
fn check_block(unit: u8, block: Block<'_>) -> Result<Header, Fault>
    ensures { answers (λ h. h) result ≡ checked block.entry.carrier unit block.entry.bytes.now }
{
    let mut reader = Reader::new(block);
    let header = reader.header()?;
    check_header(unit, block, header)?;
    let left = pass_messages(reader)?;
    if left != 0 {
        return Err(in_header(Why::LeftOver, block.bytes.len() - left));
    }
    Ok(header)
}

/// What the header of a block breaks.
fn check_header(unit: u8, block: Block<'_>, header: Header) -> Result<Header, Fault>
    ensures { answers (λ h. h) result ≡ header_rules block.entry.carrier unit (length block.entry.bytes.now) header }
{
    if usize::from(header.length) != block.bytes.len() {
        return Err(in_header(Why::BlockLength, 0));
    }
    if !is_for_unit(unit, header) {
        return Err(in_header(Why::OtherUnit, 3));
    }
    if !is_in_range(block.carrier, header) {
        return Err(in_header(Why::SequenceRange, 4));
    }
    Ok(header)
}

fn is_for_unit(unit: u8, header: Header) -> bool
    ensures { result ≡ for_unit unit header }
{
    header.unit == unit || header.unit == 0 && header.sequence == 0
}

fn is_in_range(carrier: Carrier, header: Header) -> bool
    ensures { result ≡ in_range carrier header }
{
    match carrier {
        Carrier::Datagram => {
            header.sequence == 0
                || u64::from(header.sequence) + u64::from(header.count) <= 4_294_967_296
        }
        Carrier::Spin => header.sequence == 0,
    }
}

/// How many bytes stand behind the block's messages.
fn pass_messages(mut reader: Reader<'_>) -> Result<usize, Fault>
    ensures { answers (λ n. n) result ≡ left_behind (standing reader.entry) }
{
    while let Some(_) = reader.message()? {}
    Ok(reader.left())
}

fn in_header(why: Why, byte: usize) -> Fault
    ensures { refusal_of result ≡ refusal (number_of why) the_layer.Header byte }
{
    Fault {
        why,
        layer: Layer::Header,
        byte,
    }
}
