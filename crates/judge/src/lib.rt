// A roll judged while it still comes in: check, fed piece by piece. Read records.rt (what is kept between pieces), then judging.rt.
#![tactic(auto)]

pub mod bounds;
pub mod judging;
pub mod records;
