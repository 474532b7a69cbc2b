// A recording, line by line, and what listens to it.
ghost use Rattle.recording.specs.Lines.{line_of, unit_after};
ghost use Rattle.recording.specs.Listening.{Hears, heading};
ghost use Rattle.std.specs.Prelude.{◌≡◌, ℕ, List, Option, None, Some, OnErr, OnOk, length};
ghost use Rattle.wire_types.specs.declared.header.Carrier.{Carrier};

use crate::collecting::{Collector, Relay};
use crate::line::{BadLine, Line, parse_line};
use std::alloc::{AllocError, Global};
use std::{fmt, io};
use wire_types::Block;

/// How much text of what is said a program collects before it prints it.
pub const PIECE: usize = 65536;

/// A block as it is heard: the number of its line, the unit that it is to be checked against if one was named, and the block.
#[derive(Clone, Copy)]
pub struct Heard<'a> {
    pub number: u64,
    pub unit: Option<u8>,
    pub block: Block<'a>,
}

/// The line, and how many bytes stand there.
impl fmt::Display for Heard<'_> {
    ghost output = { λ x. Some (heading x.number x.block.carrier (length x.block.bytes.now)) };

    fn fmt<W: fmt::Write>(&self, f: &mut fmt::Formatter<W>) -> fmt::Result {
        let Block { carrier, bytes } = self.block;
        let size = bytes.len();
        write!(f, "line {}: {carrier} of {size} bytes", self.number)
    }
}

/// What listens to a recording. It may fail as a writer does.
pub trait Listener {
    /// What a block of a unit does to it.
    ghost block_gives: { Self → Option ℕ → Carrier → List ℕ → Self → Type 0 } = { λ s unit carrier bytes t. Unit {0} };

    /// What a line that says nothing does to it.
    ghost bad_gives: { Self → Self → Type 0 } = { λ s t. Unit {0} };

    fn hear_block(&mut self, heard: Heard<'_>) -> io::Result<()>
        ensures { OnOk result (block_gives self.old heard.entry.unit heard.entry.block.carrier heard.entry.block.bytes.now self.new) };

    fn hear_bad(&mut self, number: u64, bad: BadLine) -> io::Result<()>
        ensures { OnOk result (bad_gives self.old self.new) };
}

/// A recording, as far as it was read: the unit that it named last.
#[derive(Clone, Copy)]
pub struct Recording {
    heap: Global,
    unit: Option<u8>,
}

impl Recording {
    ghost use Rattle.recording.specs.Recordings.{unit_of};

    pub fn new(heap: Global) -> Recording
        ensures { unit_of result ≡ None }
    {
        Recording { heap, unit: None }
    }

    /// Reads a line. Its block is heard, and so is a line that says nothing; a blank line and a unit are not.
    /// Where the call fails, the unit stays as it was.
    pub fn add_line<L: Listener>(
        &mut self,
        listener: &mut L,
        number: u64,
        line: &[u8],
    ) -> io::Result<()>
        ensures unit { OnOk result (unit_of self.new ≡ unit_after (line_of line.now) (unit_of self.old)) }
        ensures heard { OnOk result (Hears L.block_gives L.bad_gives (line_of line.now) (unit_of self.old) listener.old listener.new) }
        ensures kept { OnErr result (unit_of self.new ≡ unit_of self.old) }
    {
        let mut relay = Relay {
            listener,
            failure: None,
        };
        let heard = self.collect_line(&mut relay, number, line);
        heard.map_err(|failed| relay.failure.unwrap_or_else(|| failed.into()))
    }

    /// Reads a line as `add_line` does, to what collects what it has to say.
    pub fn collect_line<L: Collector>(
        &mut self,
        listener: &mut L,
        number: u64,
        line: &[u8],
    ) -> Result<(), AllocError>
        ensures unit { OnOk result (unit_of self.new ≡ unit_after (line_of line.now) (unit_of self.old)) }
        ensures heard { OnOk result (Hears L.block_gives L.bad_gives (line_of line.now) (unit_of self.old) listener.old listener.new) }
        ensures kept { OnErr result (unit_of self.new ≡ unit_of self.old) }
    {
        match parse_line(self.heap, line) {
            Ok(Line::Blank) => Ok(()),
            Ok(Line::Unit(unit)) => {
                self.unit = Some(unit);
                Ok(())
            }
            Ok(Line::Block { carrier, bytes }) => listener.hear_block(Heard {
                number,
                unit: self.unit,
                block: Block {
                    carrier,
                    bytes: bytes.as_slice(),
                },
            }),
            Err(BadLine::Memory) => Err(AllocError),
            Err(bad) => listener.hear_bad(number, bad),
        }
    }
}

#[cfg(test)]
mod tests {
    use super::*;
    use std::io::ErrorKind;
    use std::test::Fail;

    /// What was heard.
    #[derive(Drop)]
    struct Ear(String);

    impl Listener for Ear {
        fn hear_block(&mut self, heard: Heard<'_>) -> io::Result<()> {
            Collector::hear_block(self, heard)?;
            Ok(())
        }

        fn hear_bad(&mut self, number: u64, bad: BadLine) -> io::Result<()> {
            Collector::hear_bad(self, number, bad)?;
            Ok(())
        }
    }

    impl Collector for Ear {
        fn hear_block(&mut self, heard: Heard<'_>) -> Result<(), AllocError> {
            let unit = heard.unit.unwrap_or(0);
            writeln!(self.0, "{heard} for unit {unit}")
        }

        fn hear_bad(&mut self, number: u64, bad: BadLine) -> Result<(), AllocError> {
            writeln!(self.0, "line {number}: {bad}")
        }
    }

    #[test]
    fn hears_a_recording(rt: HostRuntime) -> Result<(), Fail> {
        let mut recording = Recording::new(rt.alloc());
        let mut ear = Ear(String::new(rt.alloc()));
        recording.add_line(&mut ear, 1, b"# two units")?;
        recording.add_line(&mut ear, 2, b"0a 0B")?;
        recording.add_line(&mut ear, 3, b"unit 7")?;
        recording.add_line(&mut ear, 4, b"spin 0a")?;
        recording.add_line(&mut ear, 5, b"unit 256")?;
        assert_eq!(rt;
            ear.0.as_str(),
            "line 2: datagram of 2 bytes for unit 0\nline 4: spin block of 1 bytes for unit 7\nline 5: no unit\n"
        );
        Ok(())
    }

    #[test]
    fn collects_a_recording(rt: HostRuntime) -> Result<(), Fail> {
        let mut recording = Recording::new(rt.alloc());
        let mut ear = Ear(String::new(rt.alloc()));
        let lines = ["spin 0a", "unit 7", "0a", "# the last unit", "spin 0b", "0"];
        for (number, line) in (1..=6).zip(&lines) {
            recording.collect_line(&mut ear, number, line.as_bytes())?;
        }
        assert_eq!(rt;
            ear.0.as_str(),
            "line 1: spin block of 1 bytes for unit 0\nline 3: datagram of 1 bytes for unit 7\nline 5: spin block of 1 bytes for unit 7\nline 6: no hex\n"
        );
        Ok(())
    }

    /// A listener that fails at a block as its pipe does, and at a line that says nothing as its file does.
    #[derive(Drop)]
    struct Broken;

    impl Listener for Broken {
        fn hear_block(&mut self, heard: Heard<'_>) -> io::Result<()> {
            Err(io::Error::new(ErrorKind::BrokenPipe, "no reader"))
        }

        fn hear_bad(&mut self, number: u64, bad: BadLine) -> io::Result<()> {
            Err(io::Error::new(ErrorKind::FileTooLarge, "no room"))
        }
    }

    #[test]
    fn tells_what_a_listener_fails_of(rt: HostRuntime) -> Result<(), Fail> {
        let mut recording = Recording::new(rt.alloc());
        recording.add_line(&mut Broken, 1, b"unit 7")?;
        let block = recording.add_line(&mut Broken, 2, b"0a");
        assert_eq!(rt; block.map_err(|e| e.kind()), Err(ErrorKind::BrokenPipe));
        let bad = recording.add_line(&mut Broken, 3, b"0");
        assert_eq!(rt; bad.map_err(|e| e.kind()), Err(ErrorKind::FileTooLarge));
        assert_eq!(rt; recording.unit, Some(7));
        Ok(())
    }
}
