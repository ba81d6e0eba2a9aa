// What is kept of a roll that comes in pieces and of a pattern: numbers alone, so that any may come from C.
use judge::records::Judge;
use texts::pattern::MOST_PATTERN;

// A judge and a matcher: the pattern, 0 past its length, and which of its beginnings end at the last character read, but for the
// whole pattern: bit j is that of j + 1 characters.
#[repr(C)]
#[derive(Clone, Copy)]
pub struct Searcher {
    pub judge: Judge,
    pub pattern: [u8; MOST_PATTERN],
    pub length: u32,
    pub ends: u64,
}
