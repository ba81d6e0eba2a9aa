// Counting a text, the house ranking, and choosing a table for counts.
#![tactic(auto)]

pub mod choose;
pub mod count;
pub mod raising;
pub mod ranking;
