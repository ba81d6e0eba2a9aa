// Reading one character.
ghost use Rattle.roll.specs.Paper.Operations.{ReadingOne};

use crate::fits::fits;
use ground::refusal::Refusal;
use reading::codewords::{codeword_at, pass_over};
use reading::packed::Packed;
use sound::records::Roll;
use stopper::code::{GoodCode, Ranks};

// It does not check the whole roll: it goes by the entry for place div 32, and judges the codewords from there on.
pub fn read_one(roll: Roll, buf: &[u8], dir: &[u32], place: usize) -> Result<u8, Refusal>
    ensures { ReadingOne roll buf.now dir.now place result }
{
    fits(roll, buf)?;
    if roll.n as usize <= place {
        return Err(Refusal::BadRange);
    }
    let entry = place / 32;
    if dir.len() <= entry {
        return Err(Refusal::BadEntry(entry as u64));
    }
    let h = roll.h as usize;
    let first = dir[entry] as usize;
    if h <= first {
        return Err(Refusal::BadEntry(entry as u64));
    }
    let packed = Packed {
        ranks: Ranks {
            good: GoodCode {
                code: roll.table.code,
            },
            sigma: roll.table.sigma as u32,
        },
        buf,
        h,
    };
    let at = pass_over(&packed, first, place % 32)?;
    let Some(word) = codeword_at(&packed, at) else {
        return Err(Refusal::BadCodeword(at as u64));
    };
    Ok(roll.table.places[word.rank as usize])
}
