// Choosing a table for counts.
ghost use Rattle.std.specs.Prelude.{◌≡◌};
ghost use Rattle.choosing.specs.Paper.Operations.{no_table, no_choice, Choosing};

use crate::raising::raised_of;
use crate::ranking::{best_of, ranking_of};
use ground::refusal::Refusal;
use stopper::code::{even_code, good_width};
use stopper::table::Table;

// The table, and the symbols that its characters take under it, each as often as it counts.
#[derive(Clone, Copy)]
pub struct Choice {
    pub table: Table,
    pub total: u64,
}

// What stands beside a refusal where a table is answered too: no characters.
pub fn no_table(k: u8) -> Table
    ensures { result ≡ no_table k }
{
    Table {
        code: even_code(k, 0),
        sigma: 0,
        places: [0; 256],
    }
}

// What stands beside a refusal where a choice is answered too: no table, and no symbols.
pub fn no_choice(k: u8) -> Choice
    ensures { result ≡ no_choice k }
{
    Choice {
        table: no_table(k),
        total: 0,
    }
}

pub fn choose(k: u8, counts: &[u32]) -> Result<Choice, Refusal>
    ensures { Choosing k counts.now result }
{
    if !good_width(k) {
        return Err(Refusal::BadTable);
    }
    if counts.len() != 256 {
        return Err(Refusal::BadCounts(counts.len() as u64));
    }
    let raised = raised_of(counts);
    let ranking = ranking_of(&raised);
    let best = best_of(k, &raised, ranking);
    let places = ranking.places;
    Ok(Choice {
        table: Table {
            code: best.code,
            sigma: ranking.sigma as u16,
            places,
        },
        total: best.total,
    })
}
