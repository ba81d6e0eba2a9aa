// Reading codewords symbol by symbol: a state by value.
ghost use Rattle.std.specs.Prelude.{◌≡◌};
ghost use Rattle.stopper.specs.Helpers.State.{Small, opened, nearer, past_at, stepped};

use crate::code::{Ranks, base_of, stoppers_at};

// An open codeword: the place of the next symbol (counted as far as 2, from where all places are alike), the number of shorter
// codewords, the rows of so many continuers, and the value of those read.
// Past: sigma is reached, and the stopper not yet read. A flag beside numbers, as C holds them (`judge`'s Progress), where any may come.
#[derive(Clone, Copy, PartialEq, Eq)]
pub struct Reader {
    pub past: bool,
    pub place: u32,
    pub shorter: u32,
    pub rows: u32,
    pub value: u32,
}

// What a symbol does: it ends a codeword of a rank below sigma, it ends a bad one, or the codeword stays open.
#[derive(Clone, Copy)]
pub enum Step {
    Rank(u32),
    Bad,
    Open(Reader),
}

pub fn opening() -> Reader
    ensures { result ≡ opened }
{
    Reader {
        past: false,
        place: 0,
        shorter: 0,
        rows: 1,
        value: 0,
    }
}

#[tactic(auto, unfolding(crate::specs::Helpers::State::nearer))]
pub fn next_place(place: u32) -> u32
    ensures { result ≡ nearer place }
{
    if place < 2 { place + 1 } else { 2 }
}

fn past_at(place: u32) -> Reader
    ensures { result ≡ past_at place }
{
    Reader {
        past: true,
        place,
        shorter: 0,
        rows: 1,
        value: 0,
    }
}

pub fn read_symbol(ranks: Ranks, r: Reader, symbol: u8) -> Step
    requires { Small r }
    ensures { result ≡ stepped ranks.good.code ranks.sigma r symbol }
{
    let Ranks { good, sigma, .. } = ranks;
    let s = stoppers_at(good.code, r.place);
    let y = u32::from(symbol);
    let shorter = r.shorter;
    let value = r.value;
    if y < s {
        let rank = shorter + (value * s + y);
        if r.past {
            return Step::Bad;
        }
        if sigma <= rank {
            return Step::Bad;
        }
        return Step::Rank(rank);
    }
    let place = next_place(r.place);
    if r.past {
        return Step::Open(past_at(place));
    }
    let c = base_of(good) - s;
    let rows = r.rows;
    let least = shorter + rows * s;
    let next = value * c + (y - s);
    if sigma <= least + next {
        return Step::Open(past_at(place));
    }
    Step::Open(Reader {
        past: false,
        place,
        shorter: least,
        rows: rows * c,
        value: next,
    })
}
