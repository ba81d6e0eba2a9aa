// A roll searched by jumps over its packed bytes.
//     counting           characters numbered by the codewords that end before them, a block of bytes at a time
//     searched           what is searched: packed symbols
//     windows            windows of bytes, all alignments of the pattern in them, and the table of jumps
//     scanning           the windows one after the other
//     jumping            a sound roll searched; symbol by symbol where the pattern has too few for a window
//     search_jumping     the operation, which answers and writes what the plain search does
#![tactic(auto)]

mod counting;
mod jumping;
mod scanning;
pub mod search_jumping;
mod searched;
mod windows;
