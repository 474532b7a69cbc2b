// How many vectors there were, and how many of them differ.
ghost use Rattle.bench.specs.Scores.{counted};
ghost use Rattle.std.specs.Prelude.{◌≡◌, ◌<◌, ◌≤◌, true, false, is_ok, if◌then◌else◌, ◌==◌, nat_lt};

use std::error::Error;
use std::fmt;

/// How many vectors there were, and how many of them differ.
#[derive(Clone, Copy, Default)]
pub struct Score {
    vectors: u64,
    differ: u64,
}

/// Why a score will not do.
#[derive(Clone, Copy, Debug, PartialEq, Eq)]
pub enum BadScore {
    NoVector,
    Differs,
}

impl fmt::Display for BadScore {
    fn fmt<W: fmt::Write>(&self, f: &mut fmt::Formatter<W>) -> fmt::Result {
        f.write_str(match self {
            BadScore::NoVector => "there was no vector",
            BadScore::Differs => "not all is as expected",
        })
    }
}

impl Error for BadScore {}

impl Score {
    /// One vector more. A difference is never forgotten.
    pub fn counted(self, differs: bool) -> Score
        ensures value { result ≡ counted self differs }
        ensures vectors { 0 < result.vectors }
        ensures kept { self.differ ≤ result.differ }
        ensures noted { differs ≡ true → 0 < result.differ }
        ensures same { differs ≡ false → result.differ ≡ self.differ }
    {
        Score {
            vectors: self.vectors.saturating_add(1),
            differ: if differs {
                self.differ.saturating_add(1)
            } else {
                self.differ
            },
        }
    }

    /// An error unless there was a vector and none differs.
    pub fn verdict(self) -> Result<(), BadScore>
        ensures { is_ok result ≡ (if nat_lt 0 self.vectors then (self.differ == 0) else false) }
    {
        if self.vectors == 0 {
            return Err(BadScore::NoVector);
        }
        if self.differ != 0 {
            return Err(BadScore::Differs);
        }
        Ok(())
    }
}

impl fmt::Display for Score {
    fn fmt<W: fmt::Write>(&self, f: &mut fmt::Formatter<W>) -> fmt::Result {
        write!(f, "{} vectors, {} differ", self.vectors, self.differ)
    }
}
