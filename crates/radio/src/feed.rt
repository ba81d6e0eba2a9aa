// A piece of a roll: the hits whose last symbol it brings.
ghost use Rattle.std.specs.Prelude.{◌≡◌};
ghost use Rattle.radio.specs.Paper.Operations.{Feeding};
ghost use Rattle.radio.specs.Helpers.Kept.{refused_fed};
ghost use Rattle.radio.specs.Helpers.Following.{followed_none, Follows, Went};

use crate::bounds::kept;
use crate::matcher::{GoodMatcher, Matcher};
use crate::matching::{Named, mark_places, name_hits};
use crate::records::Searcher;
use ground::refusal::Refusal;
use judge::judging::{hear_run, reader_of};
use judge::records::{Judge, Progress};
use stopper::code::{GoodCode, Ranks};
use stopper::table::Alphabet;
use stretches::codewords::{AT_ONCE, read_stretch};
use symbols::bits::per_byte;
use symbols::size::bytes_for;

// What was answered, how many hits were written, and the searcher to go on with: a refusal 6 comes with all three.
#[derive(Clone, Copy)]
pub struct Fed {
    pub answer: Result<(), Refusal>,
    pub hits: usize,
    pub searcher: Searcher,
}

// The symbols of a piece up to symbol `at` followed, the matcher with them, and so many hits written.
#[derive(Clone, Copy)]
pub struct Followed {
    pub progress: Progress,
    pub ends: u64,
    pub at: usize,
    pub hits: usize,
}

fn refused(searcher: Searcher, refusal: Refusal) -> Fed
    ensures { result ≡ refused_fed searcher refusal }
{
    Fed {
        answer: Err(refusal),
        hits: 0,
        searcher,
    }
}

fn nowhere(progress: Progress, ends: u64) -> Followed
    ensures { result ≡ followed_none progress ends }
{
    Followed {
        progress,
        ends,
        at: 0,
        hits: 0,
    }
}

// The symbols of a piece, as long as a codeword may still end well: up to symbol h, or to where one is bad whatever follows.
fn follow(searcher: Searcher, piece: &[u8], all: usize, slice: &mut [u32]) -> Followed
    requires { Follows searcher piece.now all slice.old }
    ensures { Went searcher piece.now slice.old result slice.new }
{
    let roll = &searcher.judge.roll;
    let table = &roll.table;
    let h = roll.h;
    let p = searcher.judge.progress;
    let left = (h - p.read) as usize;
    if p.past != 0 || left == 0 {
        return nowhere(p, searcher.ends);
    }
    let upto = left.min(all);
    let alphabet = Alphabet {
        ranks: Ranks {
            good: GoodCode { code: table.code },
            sigma: table.sigma as u32,
        },
        places: &table.places,
    };
    let pattern = &searcher.pattern[..searcher.length as usize];
    let mut masks = [0u64; 256];
    mark_places(pattern, &mut masks);
    let good = GoodMatcher {
        matcher: Matcher {
            pattern,
            masks: &masks,
            whole: 1 << (pattern.len() - 1),
        },
    };
    let mut text = [0u8; AT_ONCE];
    let mut named = Named {
        ends: searcher.ends,
        hits: 0,
    };
    let mut r = reader_of(p);
    let mut count = p.count;
    let mut first = p.first;
    let mut i: usize = 0;
    // A while: how far a turn goes comes from the stretch that it reads.
    while i < upto {
        let Some(on) = read_stretch(&alphabet, r, piece, i, upto, &mut text) else {
            break;
        };
        named = name_hits(&good.matcher, &text[..on.characters], count, named, slice);
        i = on.to;
        r = on.reader;
        if on.ended {
            first = p.read + i as u32;
        }
        count += on.characters as u32;
    }
    let read = p.read + i as u32;
    Followed {
        progress: Progress {
            read,
            count,
            first,
            past: 0,
            place: r.place,
            shorter: r.shorter,
            rows: r.rows,
            value: r.value,
            bad: u32::from((h <= read) & (first < read)),
            stained: p.stained,
        },
        ends: named.ends,
        at: i,
        hits: named.hits,
    }
}

pub fn feed(searcher: Searcher, piece: &[u8], slice: &mut [u32]) -> Fed
    ensures { Feeding searcher piece.now slice.old result slice.new }
{
    if let Err(refusal) = kept(searcher) {
        return refused(searcher, refusal);
    }
    let so_far = searcher.judge.progress;
    let table = &searcher.judge.roll.table;
    let k = table.code.k;
    let h = searcher.judge.roll.h;
    if so_far.bad != 0 {
        return refused(searcher, Refusal::BadCodeword(so_far.first as u64));
    }
    if bytes_for(k, h as usize) - bytes_for(k, so_far.read as usize) < piece.len() {
        return refused(searcher, Refusal::BadSymbolCount(h as u64));
    }
    let all = piece.len() * per_byte(k);
    if slice.len() < all {
        return refused(searcher, Refusal::ShortHits(all as u64));
    }
    let went = follow(searcher, piece, all, slice);
    let ranks = Ranks {
        good: GoodCode { code: table.code },
        sigma: table.sigma as u32,
    };
    let progress = hear_run(ranks, h, went.progress, piece, went.at, all);
    let answer = if progress.bad != 0 {
        Err(Refusal::BadCodeword(progress.first as u64))
    } else {
        Ok(())
    };
    let judge = Judge {
        progress,
        ..searcher.judge
    };
    Fed {
        answer,
        hits: went.hits,
        searcher: Searcher {
            judge,
            ends: went.ends,
            ..searcher
        },
    }
}
