// The character of a codeword.
ghost use Rattle.std.specs.Prelude.{◌≡◌, ◌≤◌, take};
ghost use Rattle.stopper.specs.Paper.Table.{longest};
ghost use Rattle.stopper.specs.Paper.Operations.{Decoding};
ghost use Rattle.stopper.specs.Helpers.Answers.{ranked_as, if_last};

use crate::code::{GoodCode, LONGEST, Ranks, base_of};
use crate::codeword_of::Codeword;
use crate::reading::{Step, opening, read_symbol};
use crate::table::{Table, good_table};
use ground::refusal::Refusal;

// The rank of a codeword that ended after `read` symbols, if these are all.
fn if_last(rank: u32, read: usize, length: usize) -> Option<u32>
    ensures { result ≡ if_last rank read length }
{
    if read < length { None } else { Some(rank) }
}

// The rank of a row of symbols, if it is one codeword of a rank below sigma.
pub fn rank_of_word(ranks: Ranks, length: usize, symbols: [u8; LONGEST]) -> Option<u32>
    requires { length ≤ longest }
    ensures { result ≡ ranked_as ranks.good.code ranks.sigma (take length symbols) }
{
    let m = base_of(ranks.good);
    let mut r = opening();
    for i in 0..length {
        let y = symbols[i];
        if m <= u32::from(y) {
            return None;
        }
        match read_symbol(ranks, r, y) {
            Step::Rank(rank) => {
                return if_last(rank, i + 1, length);
            }
            Step::Bad => {
                return None;
            }
            Step::Open(on) => {
                r = on;
            }
        }
    }
    None
}

pub fn character_of(table: Table, word: Codeword) -> Result<u8, Refusal>
    ensures { Decoding table word result }
{
    if !good_table(table) {
        return Err(Refusal::BadTable);
    }
    if LONGEST < word.length {
        return Err(Refusal::BadCodeword(0));
    }
    let ranks = Ranks {
        good: GoodCode { code: table.code },
        sigma: table.sigma as u32,
    };
    match rank_of_word(ranks, word.length, word.symbols) {
        Some(rank) => Ok(table.places[rank as usize]),
        None => Err(Refusal::BadCodeword(0)),
    }
}
