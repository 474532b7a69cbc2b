// A block, checked and then played to a book.
ghost use Rattle.play.specs.Plays.{AllOfAccepted, NoneIsFirstOfNone};
ghost use Rattle.play.specs.Takes.{Folds, plays, taken, taken_in};
ghost use Rattle.std.specs.Prelude.{◌≡◌, IfOk};
ghost use Rattle.wire_types.specs.Refusals.{answers};

use crate::block::{Played, play_block};
use book::Book;
use wire::check_for;
use wire_types::{Block, Carrier, Fault, Header};

/// What became of an accepted block.
#[derive(Clone, Copy)]
pub struct Taken {
    pub header: Header,
    /// None where its messages are not to be applied.
    pub played: Option<Played>,
}

/// Checks a block against a unit, or else against the one that its own header names, and plays it to a book.
/// A refused block changes nothing, nor does a datagram whose messages have no number. Of any other every message is applied in
/// order, and one that does not fit is passed over; if none was, the market is what the messages make of it with no bound on rows.
#[tactic(auto, using(crate::proofs::Totals::none_is_first_of_none))]
pub fn take_block<B: Book>(book: &mut B, unit: Option<u8>, block: Block<'_>) -> Result<Taken, Fault>
    ensures answer { answers (λ t. t) result ≡ taken block.entry.carrier unit block.entry.bytes.now (B.view book.old) }
    ensures book { B.view book.new ≡ taken_in block.entry.carrier unit block.entry.bytes.now (B.view book.old) }
    ensures all { AllOfAccepted block.entry.bytes.now }
    ensures counted { NoneIsFirstOfNone }
    ensures fold { IfOk result (λ t. Folds t.played block.entry.bytes.now (B.view book.old) (B.view book.new)) }
{
    let header = check_for(unit, block)?;
    if !is_played(block.carrier, header) {
        return Ok(Taken {
            header,
            played: None,
        });
    }
    let played = play_block(book, block.bytes);
    Ok(Taken {
        header,
        played: Some(played),
    })
}

/// Whether a block's messages are to be applied: those of a spin, and numbered ones.
fn is_played(carrier: Carrier, header: Header) -> bool
    ensures { result ≡ plays carrier header }
{
    match carrier {
        Carrier::Datagram => header.sequence != 0,
        Carrier::Spin => true,
    }
}
