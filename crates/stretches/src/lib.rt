// A stretch of a roll that comes in, read at once: whole codewords, or one symbol of a codeword that a piece's border cuts or that is bad.
#![tactic(auto)]

pub mod codewords;
