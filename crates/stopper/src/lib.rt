// The stopper code alone: a table, the codeword of a character and the character of a codeword.
// Read code.rt (a code), table.rt (a table), word.rt (codewords) and reading.rt (reading them), then the two operations.
#![tactic(auto)]

pub mod character_of;
pub mod code;
pub mod codeword_of;
pub mod reading;
pub mod table;
pub mod word;
