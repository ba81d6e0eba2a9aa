// A roll in its buffer: its record, and, once it is known to be sound, where its codewords end, a range of its text, its directory looked up.
// Nothing is refused here. Read records.rt, stops.rt, ends.rt, range.rt, lookup.rt.
#![tactic(auto)]

pub mod ends;
pub mod lookup;
pub mod range;
pub mod records;
pub mod stops;
