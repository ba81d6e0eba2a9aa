// Codewords where they lie, one after the other. Nothing is refused here: a bad codeword is answered.
#![tactic(auto)]

pub mod codewords;
pub mod packed;
