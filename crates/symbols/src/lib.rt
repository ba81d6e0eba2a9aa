// Base symbols of k bits in a lent byte buffer, k being 2 or 4: symbol 0 in the highest bits of byte 0, and so on down.
// A buffer means the row of all its symbols, `symbols_of k bytes`; what this crate offers is
//     symbol::get, put                                one symbol
//     run::clear, clear_unused, up, down, all_zero    a run of symbols
//     gather::begin, join_all, add, add_each, finish  symbols stored one after the other
//     size::bytes_for, unused, room_of                bytes for symbols, symbols for bytes
//     bits::per_byte, byte_of, place_in_byte          where a symbol stands
// and each contract is of that row, or of those sizes. The other modules are what these are made of.
#![tactic(auto)]

pub mod bits;
mod each;
pub mod gather;
pub mod run;
pub mod size;
pub mod symbol;
mod whole;
