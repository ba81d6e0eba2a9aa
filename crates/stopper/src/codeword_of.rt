// The codeword of a character.
ghost use Rattle.std.specs.Prelude.{◌≡◌, []};
ghost use Rattle.stopper.specs.Paper.Operations.{Coding, codeword_for};

use crate::code::{GoodCode, LONGEST};
use crate::table::{Table, good_table, rank_of};
use crate::word::spell_word;
use ground::refusal::Refusal;

// Symbols, one to a byte, 0 past the length: as C holds them.
#[repr(C)]
#[derive(Clone, Copy)]
pub struct Codeword {
    pub length: usize,
    pub symbols: [u8; LONGEST],
}

// What stands beside a refusal where a codeword is answered too: no symbols.
pub fn no_word() -> Codeword
    ensures { result ≡ codeword_for [] }
{
    Codeword {
        length: 0,
        symbols: [0; LONGEST],
    }
}

pub fn codeword_of(table: Table, character: u8) -> Result<Codeword, Refusal>
    ensures { Coding table character result }
{
    if !good_table(table) {
        return Err(Refusal::BadTable);
    }
    let Some(rank) = rank_of(table, character) else {
        return Err(Refusal::NotInTable(0));
    };
    let mut symbols = [0u8; LONGEST];
    let length = spell_word(GoodCode { code: table.code }, rank as u32, &mut symbols);
    Ok(Codeword { length, symbols })
}
