// Any searcher may come: what start asks is asked of it again, and that its numbers are within their bounds.
ghost use Rattle.std.specs.Prelude.{◌≡◌, ◌^◌, ltb};
ghost use Rattle.radio.specs.Helpers.Kept.{Kept};

use crate::records::Searcher;
use ground;
use ground::refusal::Refusal;
use judge::bounds::judge_bounds;
use stopper::table::good_table;
use texts::pattern::{MOST_PATTERN, good_pattern};

// Whether a number has no more than so many bits.
fn bits_within(x: u64, bits: u32) -> bool
    ensures { result ≡ ltb x (2 ^ bits) }
{
    64 <= bits || x < 1 << bits
}

pub fn kept(searcher: Searcher) -> Result<(), Refusal>
    ensures { Kept searcher result }
{
    let judge = searcher.judge;
    let roll = judge.roll;
    if !good_table(roll.table) {
        return Err(Refusal::BadTable);
    }
    if ground::limit() < roll.h as usize {
        return Err(Refusal::BadSymbolCount(roll.h as u64));
    }
    let length = searcher.length as usize;
    if MOST_PATTERN < length || !good_pattern(&searcher.pattern[..length]) {
        return Err(Refusal::BadPattern);
    }
    let ends = searcher.ends;
    if !judge_bounds(judge)
        || !bits_within(ends, judge.progress.count)
        || !bits_within(ends, searcher.length - 1)
    {
        return Err(Refusal::BadTable);
    }
    Ok(())
}
