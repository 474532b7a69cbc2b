// The messages of a block, one after another.
ghost use Rattle.std.specs.Prelude.{◌≡◌, ◌<◌, None};
ghost use Rattle.market.specs.Market.{applied, applied_all, full_for, unbounded};
ghost use Rattle.play.specs.Plays.{AllOfAccepted, outcome};
ghost use Rattle.play.specs.Steps.{noted, so_far};
ghost use Rattle.wire_messages.specs.Frames.{framed, messages_of};

use book::Book;
use wire_messages::frame;

/// What became of a block's messages.
#[derive(Clone, Copy, Default)]
pub struct Played {
    /// Those that did not fit, if any did not.
    pub declined: Option<Declined>,
}

/// Messages of a block that did not fit.
#[derive(Clone, Copy)]
pub struct Declined {
    /// How many.
    pub count: u8,
    /// The place of the first of them.
    pub first: u8,
}

/// Applies the messages of a block to a book in order. One that does not fit is passed over and told.
/// Where a message is not whole, neither it nor what stands behind it is applied.
pub(crate) fn play_block<B: Book>(book: &mut B, block: &[u8]) -> Played
    ensures book { B.view book.new ≡ applied_all (B.view book.old) (messages_of block.now) }
    ensures played { result ≡ outcome (B.view book.old) (messages_of block.now) }
    ensures all { AllOfAccepted block.now }
    ensures fold { result.declined ≡ None → B.view book.new ≡ unbounded (B.view book.old) (messages_of block.now) }
{
    let Some((header, body)) = block.split_first_chunk::<8>() else {
        return Played::default();
    };
    play_messages(book, header[2], body)
}

/// Applies the first `count` messages of the bytes, as far as they are whole.
fn play_messages<B: Book>(book: &mut B, count: u8, bytes: &[u8]) -> Played
    ensures book { B.view book.new ≡ applied_all (B.view book.old) (framed count bytes.now) }
    ensures played { result ≡ outcome (B.view book.old) (framed count bytes.now) }
{
    let mut played = Played::default();
    let mut rest = bytes;
    for place in 0..count {
        let Ok(message) = frame(rest) else {
            break;
        };
        played = play_one(book, message, place, played);
        rest = &rest[message.len()..];
    }
    played
}

/// Applies the message at a place, and notes if it does not fit.
fn play_one<B: Book>(book: &mut B, message: &[u8], place: u8, played: Played) -> Played
    requires { (so_far place played).count < 255 }
    ensures book { B.view book.new ≡ applied (B.view book.old) message.now }
    ensures played { result ≡ noted (full_for (B.view book.old) message.now) place played }
{
    if book.apply(message) {
        return played;
    }
    let Declined { count, first } = played.declined.unwrap_or(Declined {
        count: 0,
        first: place,
    });
    Played {
        declined: Some(Declined {
            count: count + 1,
            first,
        }),
    }
}
