// Blocks, what is said of them and what is expected.
use bench::Bench;
use recording::{BadLine, Collector, Heard};
use std::alloc::{AllocError, Global};
use std::str;
use wire_report::describe;

/// The blocks of a recording, on a bench.
#[derive(Drop)]
pub struct Blocks {
    heap: Global,
    bench: Bench,
}

impl Blocks {
    pub fn new(heap: Global) -> Blocks {
        Blocks {
            heap,
            bench: Bench::new(heap),
        }
    }

    pub fn bench(&self) -> &Bench {
        &self.bench
    }

    /// Takes a line that is expected of the block above it.
    pub fn expect(&mut self, number: u64, line: &[u8]) -> Result<(), AllocError> {
        match str::from_utf8(line) {
            Ok(text) => {
                let text = text.trim_end_matches(['\r', '\n']);
                self.bench
                    .expect(number, text, "no block to expect this of")
            }
            Err(_) => self.bench.add_fault(number, "no text"),
        }
    }

    /// Ends the trial of the last block.
    pub fn close(&mut self) -> Result<(), AllocError> {
        self.bench.close()
    }
}

impl Collector for Blocks {
    fn hear_block(&mut self, heard: Heard<'_>) -> Result<(), AllocError> {
        let report = describe(self.heap, heard.unit, heard.block)?;
        self.bench.begin(heard.number, report.text)
    }

    fn hear_bad(&mut self, number: u64, bad: BadLine) -> Result<(), AllocError> {
        self.bench.close()?;
        let why = format!(in self.heap; "{bad}")?;
        self.bench.add_fault(number, why.as_str())
    }
}
