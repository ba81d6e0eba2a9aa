// A text stored as base symbols: its codewords laid out and written (words.rt), measured (measure.rt), stored afresh (fresh.rt), a run of a sound roll
// replaced by it (replace.rt), and the directory mended (mending.rt). Nothing is refused here.
#![tactic(auto)]

pub mod fresh;
pub mod measure;
pub mod mending;
pub mod replace;
pub mod replacement;
pub mod words;
