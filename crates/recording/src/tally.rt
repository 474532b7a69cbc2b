// How many blocks and lines there were.
ghost use Rattle.std.specs.Prelude.{◌≡◌, Some};

use std::fmt;

/// How many blocks and lines there were, by what became of them. No count passes the largest number.
#[derive(Clone, Copy, Default)]
pub struct Tally {
    pub accepted: u64,
    /// Messages of accepted blocks.
    pub messages: u64,
    pub refused: u64,
    pub not_understood: u64,
}

impl Tally {
    ghost use Rattle.recording.specs.Tallies.{more};

    pub fn blocks(self) -> u64
        ensures { result ≡ more self.accepted self.refused }
    {
        self.accepted.saturating_add(self.refused)
    }

    /// Counts a block that was accepted with so many messages.
    pub fn accept(&mut self, messages: u8)
        ensures { self.new ≡ record self.old { accepted = more self.old.accepted 1; messages = more self.old.messages messages } }
    {
        self.accepted = self.accepted.saturating_add(1);
        self.messages = self.messages.saturating_add(u64::from(messages));
    }

    /// Counts a block that was refused.
    pub fn refuse(&mut self)
        ensures { self.new ≡ record self.old { refused = more self.old.refused 1 } }
    {
        self.refused = self.refused.saturating_add(1);
    }

    /// Counts a line that says nothing.
    pub fn misread(&mut self)
        ensures { self.new ≡ record self.old { not_understood = more self.old.not_understood 1 } }
    {
        self.not_understood = self.not_understood.saturating_add(1);
    }
}

impl fmt::Display for Tally {
    ghost use Rattle.recording.specs.Tallies.{tally_words};

    ghost output = { λ x. Some (tally_words x) };

    fn fmt<W: fmt::Write>(&self, f: &mut fmt::Formatter<W>) -> fmt::Result {
        write!(
            f,
            "{} blocks, {} accepted with {} messages, {} refused, {} lines not understood",
            self.blocks(),
            self.accepted,
            self.messages,
            self.refused,
            self.not_understood,
        )
    }
}
