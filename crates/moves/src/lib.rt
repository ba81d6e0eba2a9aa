// All codewords of a buffer read a byte at a time: what its symbols do to an open codeword is worked out once for each byte value. Read byte.rt, passing.rt.
#![tactic(auto)]

pub mod byte;
pub mod passing;
