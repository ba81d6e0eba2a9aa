// Codewords where they lie: the symbols of a buffer, up to symbol h.
ghost use Rattle.std.specs.Prelude.{◌≡◌, ◌≤◌};
ghost use Rattle.reading.specs.Helpers.Codewords.{row_of, found_at, passed_from, refused_at};

use crate::packed::Packed;
use ground::refusal::Refusal;
use stopper::reading::{Step, opening, read_symbol};
use symbols::symbol::get;

// A codeword: its rank, and the symbol after it.
#[derive(Clone, Copy, Debug, PartialEq, Eq)]
pub struct Word {
    pub rank: u32,
    pub next: usize,
}

// The first symbol of the first bad codeword.
#[derive(Clone, Copy, Debug, PartialEq, Eq)]
pub struct BadWord {
    pub first: usize,
}

impl From<BadWord> for Refusal {
    ghost from_gives = { refused_at };

    fn from(bad: BadWord) -> Refusal {
        Refusal::BadCodeword(bad.first as u64)
    }
}

// The codeword that starts at symbol p, if it is a good one.
pub fn codeword_at(packed: &Packed, p: usize) -> Option<Word>
    requires { p ≤ packed.now.h }
    ensures { let s = packed.now in result ≡ found_at s.ranks.good.code s.ranks.sigma (row_of s) p }
{
    let Packed { ranks, buf, h, .. } = *packed;
    let mut r = opening();
    for i in p..h {
        let y = get(ranks.good.code.k, buf, i);
        match read_symbol(ranks, r, y) {
            Step::Rank(rank) => {
                return Some(Word { rank, next: i + 1 });
            }
            Step::Bad => {
                return None;
            }
            Step::Open(on) => {
                // Whatever follows, it is bad.
                if on.past {
                    return None;
                }
                r = on;
            }
        }
    }
    None
}

// The symbol after so many codewords from symbol p on.
pub fn pass_over(packed: &Packed, p: usize, count: usize) -> Result<usize, BadWord>
    requires { p ≤ packed.now.h }
    ensures { let s = packed.now in result ≡ passed_from s.ranks.good.code s.ranks.sigma (row_of s) p count }
{
    let mut at = p;
    for _ in 0..count {
        let Some(word) = codeword_at(packed, at) else {
            return Err(BadWord { first: at });
        };
        at = word.next;
    }
    Ok(at)
}
