// A text measured under a table: whether its characters are in it and fit, and the symbols that they take.
ghost use Rattle.std.specs.Prelude.{◌≡◌, ◌*◌, T, length};
ghost use Rattle.ground.specs.Paper.Rows.{zeros};
ghost use Rattle.stopper.specs.Paper.Table.{good_table, longest};
ghost use Rattle.store.specs.Helpers.Measured.{Measured, refused_for};

use crate::words::{Words, first_foreign, fitting, spell_all};
use ground::refusal::Refusal;
use stopper::code::{GoodCode, Ranks};
use stopper::table::{Alphabet, Table};

// Why a text is not stored: the place of the first character that is not in the table; or, all being in it, of the first that does not fit.
#[derive(Clone, Copy, Debug, PartialEq, Eq)]
pub enum Misfit {
    Foreign(usize),
    Over(usize),
}

impl From<Misfit> for Refusal {
    ghost from_gives = { refused_for };

    fn from(misfit: Misfit) -> Refusal {
        match misfit {
            Misfit::Foreign(place) => Refusal::NotInTable(place as u64),
            Misfit::Over(place) => Refusal::NoRoom(place as u64),
        }
    }
}

// So many symbols. One pass asks both; if it stops, the rest is looked through for a character that is not in the table, as that is asked first. The
// codewords are laid out in words; for an empty text none are.
pub fn measure(table: Table, room: usize, text: &[u8], words: &mut Words) -> Result<usize, Misfit>
    requires { T (good_table table) × (words.old.lengths ≡ zeros 256) }
    ensures { Measured table room text.now words.new.lengths words.new.symbols result }
{
    if text.is_empty() {
        return Ok(0);
    }
    let alphabet = Alphabet {
        ranks: Ranks {
            good: GoodCode { code: table.code },
            sigma: table.sigma as u32,
        },
        places: &table.places,
    };
    spell_all(&alphabet, words);
    let fit = fitting(words, room, text);
    let upto = fit.upto;
    if text.len() <= upto {
        return Ok(fit.taken);
    }
    if let Some(foreign) = first_foreign(words, text, upto) {
        return Err(Misfit::Foreign(foreign));
    }
    Err(Misfit::Over(upto))
}
