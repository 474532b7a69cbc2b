// What is said of a recording, line by line.
ghost use Rattle.std.specs.Prelude.{◌≡◌, [], string_bytes};

use recording::{BadLine, Collector, Heard, Tally};
use std::alloc::{AllocError, Global};
use wire_report::{Indented, describe};

/// The text that has been said and not been printed, and what there was so far.
#[derive(Drop)]
pub struct Log {
    heap: Global,
    text: String,
    tally: Tally,
}

impl Log {
    pub fn new(heap: Global) -> Log
        ensures { string_bytes result.text ≡ [] }
    {
        Log {
            heap,
            text: String::new(heap),
            tally: Tally::default(),
        }
    }

    /// What has been said and not been printed.
    pub fn text(&self) -> &str
        ensures { result.now ≡ string_bytes self.now.text }
    {
        self.text.as_str()
    }

    /// Lets go of the text, once it is printed. The counts stay.
    pub fn clear(&mut self)
        ensures text { string_bytes self.new.text ≡ [] }
        ensures tally { self.new.tally ≡ self.old.tally }
    {
        self.text.clear();
    }

    pub fn tally(&self) -> Tally
        ensures { result ≡ self.now.tally }
    {
        self.tally
    }
}

impl Collector for Log {
    fn hear_block(&mut self, heard: Heard<'_>) -> Result<(), AllocError> {
        let report = describe(self.heap, heard.unit, heard.block)?;
        match report.messages {
            Some(messages) => self.tally.accept(messages),
            None => self.tally.refuse(),
        }
        write!(self.text, "{heard}\n{}", Indented(report.text.as_str()))
    }

    fn hear_bad(&mut self, number: u64, bad: BadLine) -> Result<(), AllocError> {
        self.tally.misread();
        writeln!(self.text, "line {number}: {bad}")
    }
}
