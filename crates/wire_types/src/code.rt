// The closed lists of one-byte codes: the byte and the word of each code.
ghost use Rattle.std.specs.Prelude.{◌≡◌, ℕ, Some, Option};
ghost use Rattle.std.specs.Result.{result_ok};
ghost use Rattle.wire_types.specs.Codes.{condition_byte, condition_of, condition_read_back, issue_byte, issue_of, issue_read_back, listing_byte, listing_of, listing_read_back, side_byte, side_of, side_read_back, status_byte, status_of, status_read_back};
ghost use Rattle.wire_types.specs.Words.{condition_word, issue_word, listing_word, side_word, status_word};

use std::fmt;

/// A byte that stands for no code of a list.
#[derive(Clone, Copy, Debug, PartialEq, Eq)]
pub struct UnknownCode(pub u8);

/// A closed list of one-byte codes. A code is read from its byte, and printed as its word.
pub trait Code: Copy + TryFrom<u8, Error = UnknownCode> {
    /// The code that a byte stands for.
    ghost of_byte: { ℕ → Option Self };

    /// The byte of a code.
    ghost byte_of: { Self → ℕ };

    /// The byte by which the feed knows the code.
    fn byte(self) -> u8
        ensures { result ≡ byte_of self };

    /// Reading a byte gives the code that it stands for.
    ghost reads: { (b : ℕ) (r : _) → Self.try_from_gives b r → result_ok r ≡ of_byte b };

    /// Each code is read back from its byte.
    ghost read_back: { (x : Self) → of_byte (byte_of x) ≡ Some x };
}

/// The side of the book that a quote stands on.
#[derive(Clone, Copy, Debug, PartialEq, Eq)]
pub enum Side {
    Bid,
    Ask,
}

impl TryFrom<u8> for Side {
    type Error = UnknownCode;

    ghost try_from_gives = { λ b r. result_ok r ≡ side_of b };

    fn try_from(byte: u8) -> Result<Side, UnknownCode> {
        match byte {
            b'B' => Ok(Side::Bid),
            b'S' => Ok(Side::Ask),
            _ => Err(UnknownCode(byte)),
        }
    }
}

impl Code for Side {
    ghost of_byte = { side_of };

    ghost byte_of = { side_byte };

    ghost reads = { λ b r h. h };

    ghost read_back = { side_read_back };

    fn byte(self) -> u8 {
        match self {
            Side::Bid => b'B',
            Side::Ask => b'S',
        }
    }
}

impl Side {
    /// The word by which the code is told.
    pub fn word(self) -> &'static str
        ensures { result.now ≡ side_word self }
    {
        match self {
            Side::Bid => "bid",
            Side::Ask => "ask",
        }
    }
}

impl fmt::Display for Side {
    ghost output = { λ x. Some (side_word x) };

    fn fmt<W: fmt::Write>(&self, f: &mut fmt::Formatter<W>) -> fmt::Result {
        f.write_str(self.word())
    }
}

/// Whether an instrument trades.
#[derive(Clone, Copy, Debug, PartialEq, Eq)]
pub enum Status {
    Suspended,
    Queuing,
    Trading,
    Halted,
}

impl TryFrom<u8> for Status {
    type Error = UnknownCode;

    ghost try_from_gives = { λ b r. result_ok r ≡ status_of b };

    fn try_from(byte: u8) -> Result<Status, UnknownCode> {
        match byte {
            b'S' => Ok(Status::Suspended),
            b'Q' => Ok(Status::Queuing),
            b'T' => Ok(Status::Trading),
            b'H' => Ok(Status::Halted),
            _ => Err(UnknownCode(byte)),
        }
    }
}

impl Code for Status {
    ghost of_byte = { status_of };

    ghost byte_of = { status_byte };

    ghost reads = { λ b r h. h };

    ghost read_back = { status_read_back };

    fn byte(self) -> u8 {
        match self {
            Status::Suspended => b'S',
            Status::Queuing => b'Q',
            Status::Trading => b'T',
            Status::Halted => b'H',
        }
    }
}

impl Status {
    /// The word by which the code is told.
    pub fn word(self) -> &'static str
        ensures { result.now ≡ status_word self }
    {
        match self {
            Status::Suspended => "suspended",
            Status::Queuing => "queuing",
            Status::Trading => "trading",
            Status::Halted => "halted",
        }
    }
}

impl fmt::Display for Status {
    ghost output = { λ x. Some (status_word x) };

    fn fmt<W: fmt::Write>(&self, f: &mut fmt::Formatter<W>) -> fmt::Result {
        f.write_str(self.word())
    }
}

/// How a trade came about; `Break` takes an earlier one back.
#[derive(Clone, Copy, Debug, PartialEq, Eq)]
pub enum Condition {
    Normal,
    Opening,
    Spread,
    Block,
    Ecrp,
    Break,
    Derived,
}

impl TryFrom<u8> for Condition {
    type Error = UnknownCode;

    ghost try_from_gives = { λ b r. result_ok r ≡ condition_of b };

    fn try_from(byte: u8) -> Result<Condition, UnknownCode> {
        match byte {
            b' ' => Ok(Condition::Normal),
            b'O' => Ok(Condition::Opening),
            b'S' => Ok(Condition::Spread),
            b'B' => Ok(Condition::Block),
            b'E' => Ok(Condition::Ecrp),
            b'X' => Ok(Condition::Break),
            b'D' => Ok(Condition::Derived),
            _ => Err(UnknownCode(byte)),
        }
    }
}

impl Code for Condition {
    ghost of_byte = { condition_of };

    ghost byte_of = { condition_byte };

    ghost reads = { λ b r h. h };

    ghost read_back = { condition_read_back };

    fn byte(self) -> u8 {
        match self {
            Condition::Normal => b' ',
            Condition::Opening => b'O',
            Condition::Spread => b'S',
            Condition::Block => b'B',
            Condition::Ecrp => b'E',
            Condition::Break => b'X',
            Condition::Derived => b'D',
        }
    }
}

impl Condition {
    /// The word by which the code is told.
    pub fn word(self) -> &'static str
        ensures { result.now ≡ condition_word self }
    {
        match self {
            Condition::Normal => "normal",
            Condition::Opening => "opening",
            Condition::Spread => "spread",
            Condition::Block => "block",
            Condition::Ecrp => "ECRP",
            Condition::Break => "break",
            Condition::Derived => "derived",
        }
    }
}

impl fmt::Display for Condition {
    ghost output = { λ x. Some (condition_word x) };

    fn fmt<W: fmt::Write>(&self, f: &mut fmt::Formatter<W>) -> fmt::Result {
        f.write_str(self.word())
    }
}

/// How final a settlement price is.
#[derive(Clone, Copy, Debug, PartialEq, Eq)]
pub enum Issue {
    Periodic,
    Indicative,
    Initial,
    Reissued,
}

impl TryFrom<u8> for Issue {
    type Error = UnknownCode;

    ghost try_from_gives = { λ b r. result_ok r ≡ issue_of b };

    fn try_from(byte: u8) -> Result<Issue, UnknownCode> {
        match byte {
            b'i' => Ok(Issue::Periodic),
            b'I' => Ok(Issue::Indicative),
            b'S' => Ok(Issue::Initial),
            b'R' => Ok(Issue::Reissued),
            _ => Err(UnknownCode(byte)),
        }
    }
}

impl Code for Issue {
    ghost of_byte = { issue_of };

    ghost byte_of = { issue_byte };

    ghost reads = { λ b r h. h };

    ghost read_back = { issue_read_back };

    fn byte(self) -> u8 {
        match self {
            Issue::Periodic => b'i',
            Issue::Indicative => b'I',
            Issue::Initial => b'S',
            Issue::Reissued => b'R',
        }
    }
}

impl Issue {
    /// The word by which the code is told.
    pub fn word(self) -> &'static str
        ensures { result.now ≡ issue_word self }
    {
        match self {
            Issue::Periodic => "periodic",
            Issue::Indicative => "indicative",
            Issue::Initial => "initial",
            Issue::Reissued => "re-issued",
        }
    }
}

impl fmt::Display for Issue {
    ghost output = { λ x. Some (issue_word x) };

    fn fmt<W: fmt::Write>(&self, f: &mut fmt::Formatter<W>) -> fmt::Result {
        f.write_str(self.word())
    }
}

/// Whether an instrument is listed.
#[derive(Clone, Copy, Debug, PartialEq, Eq)]
pub enum Listing {
    Active,
    Inactive,
    Test,
}

impl TryFrom<u8> for Listing {
    type Error = UnknownCode;

    ghost try_from_gives = { λ b r. result_ok r ≡ listing_of b };

    fn try_from(byte: u8) -> Result<Listing, UnknownCode> {
        match byte {
            b'A' => Ok(Listing::Active),
            b'I' => Ok(Listing::Inactive),
            b'T' => Ok(Listing::Test),
            _ => Err(UnknownCode(byte)),
        }
    }
}

impl Code for Listing {
    ghost of_byte = { listing_of };

    ghost byte_of = { listing_byte };

    ghost reads = { λ b r h. h };

    ghost read_back = { listing_read_back };

    fn byte(self) -> u8 {
        match self {
            Listing::Active => b'A',
            Listing::Inactive => b'I',
            Listing::Test => b'T',
        }
    }
}

impl Listing {
    /// The word by which the code is told.
    pub fn word(self) -> &'static str
        ensures { result.now ≡ listing_word self }
    {
        match self {
            Listing::Active => "active",
            Listing::Inactive => "inactive",
            Listing::Test => "test",
        }
    }
}

impl fmt::Display for Listing {
    ghost output = { λ x. Some (listing_word x) };

    fn fmt<W: fmt::Write>(&self, f: &mut fmt::Formatter<W>) -> fmt::Result {
        f.write_str(self.word())
    }
}
