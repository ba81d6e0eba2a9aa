// A searcher before the first piece.
ghost use Rattle.std.specs.Prelude.{◌≡◌, []};
ghost use Rattle.radio.specs.Paper.Operations.{searcher_for, Starting};

use crate::matching::kept_pattern;
use crate::records::Searcher;
use ground;
use ground::refusal::Refusal;
use judge::judging::judge_of;
use sound::records::Roll;
use stopper::table::good_table;
use texts::pattern::{MOST_PATTERN, good_pattern};

// What stands beside a refusal where a searcher is answered too: one of that record with an empty pattern, which feed and finish refuse in their turn.
pub fn no_searcher(roll: Roll) -> Searcher
    ensures { result ≡ searcher_for roll [] }
{
    Searcher {
        judge: judge_of(roll),
        pattern: [0; MOST_PATTERN],
        length: 0,
        ends: 0,
    }
}

pub fn start(roll: Roll, pattern: &[u8]) -> Result<Searcher, Refusal>
    ensures { Starting roll pattern.now result }
{
    if !good_table(roll.table) {
        return Err(Refusal::BadTable);
    }
    if ground::limit() < roll.h as usize {
        return Err(Refusal::BadSymbolCount(roll.h as u64));
    }
    if !good_pattern(pattern) {
        return Err(Refusal::BadPattern);
    }
    Ok(Searcher {
        judge: judge_of(roll),
        pattern: kept_pattern(pattern),
        length: pattern.len() as u32,
        ends: 0,
    })
}
