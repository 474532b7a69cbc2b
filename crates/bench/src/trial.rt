// What is said on a line, and the lines that are expected of it.
ghost use Rattle.bench.specs.Benches.{score_of, text_of, trial_of, trial, tried, with_line, closed, difference, told, fault, stray};
ghost use Rattle.bench.specs.Scores.{counted, no_vector};
ghost use Rattle.std.specs.Option.{option_map};
ghost use Rattle.std.specs.Prelude.{◌≡◌, ◌++◌, [], Some, true, MatchOption, OnOk, string_bytes};

use crate::score::Score;
use std::alloc::{AllocError, Global};
use std::fmt;
use wire_report::Indented;

/// A line under trial: its number, what is said on it, and what is expected so far.
#[derive(Drop)]
struct Trial {
    number: u64,
    said: String,
    expected: String,
}

/// What is told where the lines differ.
impl fmt::Display for Trial {
    ghost output = { λ x. Some (told (tried x)) };

    fn fmt<W: fmt::Write>(&self, f: &mut fmt::Formatter<W>) -> fmt::Result {
        let said = Indented(self.said.as_str());
        let expected = Indented(self.expected.as_str());
        write!(
            f,
            "line {}: expected\n{expected}but said\n{said}",
            self.number
        )
    }
}

/// The line under trial, and what there is to say of those before it.
#[derive(Drop)]
pub struct Bench {
    heap: Global,
    text: String,
    trial: Option<Trial>,
    score: Score,
}

impl Bench {
    /// A bench with nothing on it.
    pub fn new(heap: Global) -> Bench
        ensures score { score_of result ≡ no_vector }
        ensures text { text_of result ≡ [] }
        ensures trial { trial_of result ≡ None }
    {
        Bench {
            heap,
            text: String::new(heap),
            trial: None,
            score: Score::default(),
        }
    }

    /// Tells each difference.
    pub fn text(&self) -> &str
        ensures { result.now ≡ text_of self.now }
    {
        self.text.as_str()
    }

    pub fn score(&self) -> Score
        ensures { result ≡ score_of self.now }
    {
        self.score
    }

    /// Takes what is said on a line, and ends the trial of the line before.
    pub fn begin(&mut self, number: u64, said: String) -> Result<(), AllocError>
        ensures score { score_of self.new ≡ closed (trial_of self.old) (score_of self.old) }
        ensures text { OnOk result (text_of self.new ≡ text_of self.old ++ difference (trial_of self.old)) }
        ensures trial { OnOk result (trial_of self.new ≡ Some (trial number (string_bytes said) [])) }
    {
        self.close()?;
        self.trial = Some(Trial {
            number,
            said,
            expected: String::new(self.heap),
        });
        Ok(())
    }

    /// Takes a line that is expected of the one under trial. With none, the line is a fault, told in the words of `lacks`.
    pub fn expect(&mut self, number: u64, line: &str, lacks: &str) -> Result<(), AllocError>
        ensures score { MatchOption (trial_of self.old) (score_of self.new ≡ counted (score_of self.old) true) (λ _. score_of self.new ≡ score_of self.old) }
        ensures text { OnOk result (text_of self.new ≡ text_of self.old ++ stray (trial_of self.old) number lacks.now) }
        ensures trial { OnOk result (trial_of self.new ≡ option_map (with_line line.now) (trial_of self.old)) }
    {
        match &mut self.trial {
            Some(trial) => {
                trial.expected.push_str(line)?;
                trial.expected.push_str("\n")
            }
            None => self.add_fault(number, lacks),
        }
    }

    /// Ends the trial of the last line, if there is one: it is counted, and a difference is told.
    pub fn close(&mut self) -> Result<(), AllocError>
        ensures score { score_of self.new ≡ closed (trial_of self.old) (score_of self.old) }
        ensures text { OnOk result (text_of self.new ≡ text_of self.old ++ difference (trial_of self.old)) }
        ensures trial { trial_of self.new ≡ None }
    {
        let Some(trial) = self.trial.take() else {
            return Ok(());
        };
        let differs = trial.said != trial.expected;
        self.score = self.score.counted(differs);
        if differs {
            write!(self.text, "{trial}")?;
        }
        Ok(())
    }

    /// Counts a line that is of no use as a vector that differs.
    pub fn add_fault(&mut self, number: u64, why: &str) -> Result<(), AllocError>
        ensures score { score_of self.new ≡ counted (score_of self.old) true }
        ensures text { OnOk result (text_of self.new ≡ text_of self.old ++ fault number why.now) }
        ensures trial { trial_of self.new ≡ trial_of self.old }
    {
        self.score = self.score.counted(true);
        writeln!(self.text, "line {number}: {why}")
    }
}
