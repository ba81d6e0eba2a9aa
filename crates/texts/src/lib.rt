// Texts, and what is said of them and of codeword lengths alone: hits, the directory, the edited text. Most of it is in specs/.
#![tactic(auto)]

pub mod entries;
pub mod pattern;
