// A sound roll searched where it lies.
#![tactic(auto)]

pub mod finding;
