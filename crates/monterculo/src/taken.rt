// Answers as C takes them: numbers beside each other, an enum being none.
ghost use Rattle.monterculo.specs.Paper.Taken.{in_numbers};

use ground::refusal::Refusal;
use radio::records::Searcher;
use sound::records::Roll;
use stopper::codeword_of::Codeword;
use stopper::table::Table;

#[repr(C)]
#[derive(Clone, Copy)]
pub struct Told {
    pub number: u32,
    pub value: u64,
}

#[repr(C)]
#[derive(Clone, Copy)]
pub struct Chosen {
    pub answer: Told,
    pub table: Table,
}

#[repr(C)]
#[derive(Clone, Copy)]
pub struct Coded {
    pub answer: Told,
    pub word: Codeword,
}

// A roll packed, edited or read.
#[repr(C)]
#[derive(Clone, Copy)]
pub struct Rolled {
    pub answer: Told,
    pub roll: Roll,
}

#[repr(C)]
#[derive(Clone, Copy)]
pub struct Started {
    pub answer: Told,
    pub searcher: Searcher,
}

// A piece fed: how many hits were written, with a refusal too.
#[repr(C)]
#[derive(Clone, Copy)]
pub struct Fed {
    pub answer: Told,
    pub hits: usize,
    pub searcher: Searcher,
}

impl From<Result<u64, Refusal>> for Told {
    ghost from_gives = { in_numbers };

    // 0 and what is answered, or a refusal's number and value.
    fn from(outcome: Result<u64, Refusal>) -> Told {
        match outcome {
            Ok(answered) => Told {
                number: 0,
                value: answered,
            },
            Err(refusal) => Told {
                number: u32::from(refusal.number()),
                value: refusal.value(),
            },
        }
    }
}
