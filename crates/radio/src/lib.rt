// A roll searched while it still comes in: its packed bytes come in pieces, and each hit is named once its last symbol is read.
// Read records.rt (what is kept between pieces), matcher.rt and matching.rt (which beginnings of the pattern end at a character), then
// the three operations. The crate `judge` judges the roll, and `stretches` reads its codewords.
#![tactic(auto)]

pub mod bounds;
pub mod feed;
pub mod finish;
pub mod matcher;
pub mod matching;
pub mod records;
pub mod start;
