// The lines of a script, put to the books that they make.
use crate::command::{BadCommand, Command, Question, parse_command};
use crate::making::{Made, Making, NotMade};
use bench::Bench;
use std::alloc::{AllocError, Global};
use std::iter::Zip;
use std::ops::Range;
use std::str::Lines;

/// Where a script goes on.
#[derive(Drop)]
enum Step {
    Ask(Question),
    /// With another book.
    Change(Made),
}

/// What the books answered so far.
#[derive(Drop)]
struct Desk {
    heap: Global,
    bench: Bench,
}

/// The lines to come, and what the books answered so far.
#[derive(Drop)]
pub struct Script<'a> {
    lines: Zip<Range<u64>, Lines<'a>>,
    desk: Desk,
}

impl<'a> Script<'a> {
    pub fn new(heap: Global, text: &'a str) -> Script<'a> {
        Script {
            lines: (1..u64::MAX).zip(text.lines()),
            desk: Desk {
                heap,
                bench: Bench::new(heap),
            },
        }
    }

    pub fn bench(&self) -> &Bench {
        &self.desk.bench
    }

    /// Ends the trial of the last line.
    pub fn close(&mut self) -> Result<(), AllocError> {
        self.desk.bench.close()
    }

    /// Asks the questions of the lines to come, up to the line that makes another book, if there is one.
    pub fn drive<F: FnMut(Question) -> Result<String, AllocError>>(
        &mut self,
        mut ask: F,
    ) -> Result<Option<Made>, AllocError>
        requires { F.IsAlwaysCallable ask }
    {
        for (number, line) in self.lines.by_ref() {
            match self.desk.take_line(number, line)? {
                None => {}
                Some(Step::Ask(question)) => {
                    let said = ask(question)?;
                    self.desk.bench.begin(number, said)?;
                }
                Some(Step::Change(made)) => return Ok(Some(made)),
            }
        }
        Ok(None)
    }
}

impl Desk {
    /// Takes a line. What it expects, and that it is refused or not understood, is noted.
    fn take_line(&mut self, number: u64, line: &str) -> Result<Option<Step>, AllocError> {
        if let Some(expected) = line.strip_prefix("= ") {
            self.bench
                .expect(number, expected, "nothing to expect this of")?;
            return Ok(None);
        }
        if is_remark(line) {
            return Ok(None);
        }
        match parse_command(self.heap, line) {
            Ok(Command::Ask(question)) => Ok(Some(Step::Ask(question))),
            Ok(Command::Make(making)) => Ok(self.make(number, making)?.map(Step::Change)),
            Err(BadCommand::NotUnderstood) => {
                self.say(number, "bad line\n")?;
                Ok(None)
            }
            Err(BadCommand::Memory) => Err(AllocError),
        }
    }

    /// Makes a book, unless it is refused.
    fn make(&mut self, number: u64, making: Making) -> Result<Option<Made>, AllocError> {
        match making.make(self.heap) {
            Ok(made) => {
                self.say(number, "made\n")?;
                Ok(Some(made))
            }
            Err(NotMade::Refused(refusal)) => {
                let said = format!(in self.heap; "{refusal}\n")?;
                self.bench.begin(number, said)?;
                Ok(None)
            }
            Err(NotMade::Memory(e)) => Err(e),
        }
    }

    fn say(&mut self, number: u64, said: &str) -> Result<(), AllocError> {
        let said = String::from_str(self.heap, said)?;
        self.bench.begin(number, said)
    }
}

/// Whether a line is empty or begins with `#`. Any white space may stand in front, more than a recording takes for blank.
fn is_remark(line: &str) -> bool {
    let line = line.trim_start();
    line.is_empty() || line.starts_with('#')
}
