// A table: a code and the characters in rank order.
ghost use Rattle.std.specs.Prelude.{◌≡◌, ◌≤◌, length, take};
ghost use Rattle.stopper.specs.Paper.Table.{good_characters, good_table, characters};
ghost use Rattle.stopper.specs.Helpers.Answers.{ranked_in, ranks_of};

use crate::code::{Code, Ranks, good_code};

#[repr(C)]
#[derive(Clone, Copy)]
pub struct Table {
    pub code: Code,
    pub sigma: u16,
    pub places: [u8; 256],
}

// The characters of the ranks of a good code, the one of each rank.
#[derive(Clone, Copy)]
pub struct Alphabet<'a> {
    pub ranks: Ranks,
    pub places: &'a [u8; 256],
    pub ghost all: { length places.now ≡ 256 },
}

// From the last character to the first, each marked as it is met.
pub fn good_characters(table: Table) -> bool
    ensures { result ≡ good_characters table.sigma table.places }
{
    let n = usize::from(table.sigma);
    if 256 < n {
        return false;
    }
    let mut met = [false; 256];
    for i in (0..n).rev() {
        let b = usize::from(table.places[i]);
        if met[b] {
            return false;
        }
        met[b] = true;
    }
    true
}

#[tactic(auto, unfolding(crate::specs::Paper::Table::good_table))]
pub fn good_table(table: Table) -> bool
    ensures { result ≡ good_table table }
{
    good_code(table.code) && good_characters(table)
}

// The rank of a character, if it is in the table.
pub fn rank_of(table: Table, character: u8) -> Option<usize>
    requires { table.sigma ≤ 256 }
    ensures { result ≡ ranked_in (characters table) character }
{
    let row = &table.places[..usize::from(table.sigma)];
    row.iter().position(|x| *x == character)
}

// The ranks of all byte values at once, for a caller that looks up many: sigma where there is none, so that an entry is two bytes.
pub fn ranks_of(sigma: u16, places: [u8; 256]) -> [u16; 256]
    requires { sigma ≤ 256 }
    ensures { result ≡ ranks_of (take sigma places) }
{
    let mut ranks = [sigma; 256];
    for i in (0..sigma).rev() {
        ranks[usize::from(places[usize::from(i)])] = i;
    }
    ranks
}
