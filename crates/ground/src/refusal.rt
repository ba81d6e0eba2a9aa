// Why an operation refuses.
ghost use Rattle.std.specs.Prelude.{◌≡◌};
ghost use Rattle.ground.specs.Paper.Answers.{number_of, value_of};

use std::error::Error;
use std::fmt;

/// The paper's refusals, from 1 on, each with its value where it has one.
#[derive(Clone, Copy, Debug, PartialEq, Eq)]
pub enum Refusal {
    BadTable,
    BadCounts(u64),
    NotInTable(u64),
    NoRoom(u64),
    BadSymbolCount(u64),
    BadCodeword(u64),
    BadCharacterCount(u64),
    BadUnused,
    BadEntry(u64),
    BadRange,
    BadPattern,
    ShortDirectory(u64),
    ShortOutput(u64),
    ShortHits(u64),
    BadLine(u64),
}

impl Refusal {
    pub fn number(self) -> u8
        ensures { result ≡ number_of self }
    {
        match self {
            Refusal::BadTable => 1,
            Refusal::BadCounts(_) => 2,
            Refusal::NotInTable(_) => 3,
            Refusal::NoRoom(_) => 4,
            Refusal::BadSymbolCount(_) => 5,
            Refusal::BadCodeword(_) => 6,
            Refusal::BadCharacterCount(_) => 7,
            Refusal::BadUnused => 8,
            Refusal::BadEntry(_) => 9,
            Refusal::BadRange => 10,
            Refusal::BadPattern => 11,
            Refusal::ShortDirectory(_) => 12,
            Refusal::ShortOutput(_) => 13,
            Refusal::ShortHits(_) => 14,
            Refusal::BadLine(_) => 15,
        }
    }

    /// 0 where the refusal has none.
    pub fn value(self) -> u64
        ensures { result ≡ value_of self }
    {
        match self {
            Refusal::BadTable | Refusal::BadUnused | Refusal::BadRange | Refusal::BadPattern => 0,
            Refusal::BadCounts(value)
            | Refusal::NotInTable(value)
            | Refusal::NoRoom(value)
            | Refusal::BadSymbolCount(value)
            | Refusal::BadCodeword(value)
            | Refusal::BadCharacterCount(value)
            | Refusal::BadEntry(value)
            | Refusal::ShortDirectory(value)
            | Refusal::ShortOutput(value)
            | Refusal::ShortHits(value)
            | Refusal::BadLine(value) => value,
        }
    }
}

impl fmt::Display for Refusal {
    fn fmt<W: fmt::Write>(&self, f: &mut fmt::Formatter<W>) -> fmt::Result {
        write!(f, "refused {} {}", self.number(), self.value())
    }
}

impl Error for Refusal {}
