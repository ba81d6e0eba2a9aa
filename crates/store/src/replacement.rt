use crate::replace::Run;
use crate::words::Words;

// A text that takes the place of a run: its codewords are laid out in `words`, and they are so many symbols.
#[derive(Clone, Copy)]
pub struct Replacement<'a, 'b> {
    pub words: &'a Words,
    pub text: &'b [u8],
    pub taken: usize,
    pub run: Run,
}
