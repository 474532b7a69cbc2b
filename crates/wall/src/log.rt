// A book that a recording is played to, and what is told on the way.
ghost use Rattle.play.specs.Takes.{taken_in};
ghost use Rattle.recording.specs.Lines.{line_of, unit_after};
ghost use Rattle.recording.specs.Recordings.{unit_of};
ghost use Rattle.std.specs.Prelude.{◌≡◌, [], OnOk, string_bytes};
ghost use Rattle.wall.specs.Lines.{line_played};

use crate::show::show_market;
use book::Book;
use play::{Taken, take_block};
use recording::{BadLine, Collector, Heard, Recording, Tally};
use std::alloc::{AllocError, Global};

/// How many blocks, messages and lines there were, by what became of them.
#[derive(Clone, Copy, Default)]
pub struct Total {
    pub tally: Tally,
    /// Messages of accepted datagrams that have no number, and are not applied.
    pub without_number: u64,
    /// Messages that did not fit.
    pub declined: u64,
}

/// A book that a recording is played to, the text that has been said and not been printed, and what there was so far.
#[derive(Drop)]
pub struct Log<B> {
    heap: Global,
    book: B,
    text: String,
    total: Total,
}

impl<B: Book> Log<B> {
    pub fn new(heap: Global, book: B) -> Log<B>
        ensures text { string_bytes result.text ≡ [] }
        ensures book { result.book ≡ book }
    {
        Log {
            heap,
            book,
            text: String::new(heap),
            total: Total::default(),
        }
    }

    /// What has been said and not been printed.
    pub fn text(&self) -> &str
        ensures { result.now ≡ string_bytes self.now.text }
    {
        self.text.as_str()
    }

    /// Lets go of the text, once it is printed. The book and the counts stay.
    pub fn clear(&mut self)
        ensures text { string_bytes self.new.text ≡ [] }
        ensures book { self.new.book ≡ self.old.book }
        ensures total { self.new.total ≡ self.old.total }
    {
        self.text.clear();
    }

    /// Plays a line of the recording to the book. What is refused, does not fit or is not understood is told.
    pub fn add_line(
        &mut self,
        recording: &mut Recording,
        number: u64,
        line: &[u8],
    ) -> Result<(), AllocError>
        ensures unit { OnOk result (unit_of recording.new ≡ unit_after (line_of line.now) (unit_of recording.old)) }
        ensures book { OnOk result (B.view self.new.book ≡ line_played (line_of line.now) (unit_of recording.old) (B.view self.old.book)) }
    {
        recording.collect_line(self, number, line)
    }

    /// The market, and what there was in the recording.
    pub fn market(&mut self) -> Result<String, AllocError> {
        show_market(self.heap, &mut self.book, self.total)
    }

    fn add_taken(&mut self, heard: Heard<'_>, taken: Taken) -> Result<(), AllocError>
        ensures { self.new.book ≡ self.old.book }
    {
        let count = taken.header.count;
        self.total.tally.accept(count);
        let Some(played) = taken.played else {
            self.total.without_number = self.total.without_number.saturating_add(u64::from(count));
            return Ok(());
        };
        let Some(declined) = played.declined else {
            return Ok(());
        };
        let count = declined.count;
        self.total.declined = self.total.declined.saturating_add(u64::from(count));
        writeln!(
            self.text,
            "{heard}\n  {count} messages did not fit, the first at place {}",
            declined.first
        )
    }
}

impl<B: Book> Collector for Log<B> {
    ghost block_gives = { λ s unit carrier bytes t. B.view t.book ≡ taken_in carrier unit bytes (B.view s.book) };

    ghost bad_gives = { λ s t. B.view t.book ≡ B.view s.book };

    fn hear_block(&mut self, heard: Heard<'_>) -> Result<(), AllocError> {
        match take_block(&mut self.book, heard.unit, heard.block) {
            Ok(taken) => self.add_taken(heard, taken),
            Err(fault) => {
                self.total.tally.refuse();
                writeln!(self.text, "{heard}\n  {fault}")
            }
        }
    }

    fn hear_bad(&mut self, number: u64, bad: BadLine) -> Result<(), AllocError> {
        self.total.tally.misread();
        writeln!(self.text, "line {number}: {bad}")
    }
}
