// The packed roll: a text packed as base symbols in a lent buffer, with its record.
// Each operation is its refusals, in the paper's order, and then a helper of the crates below: `reading`, `moves`, `sound`, `find` or `store`.
#![tactic(auto)]

pub mod check;
pub mod edit;
pub mod fits;
pub mod make_directory;
pub mod pack;
pub mod read_one;
pub mod search;
pub mod unpack;
