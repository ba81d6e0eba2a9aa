// Characters of a buffer's codewords, a byte at a time: which ones a byte gives is worked out once for each byte value. Read giving.rt, task.rt, range.rt.
#![tactic(auto)]

pub mod giving;
pub mod range;
pub mod task;
