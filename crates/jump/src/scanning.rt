// The windows of a roll, one after the other: those that the table passes over are jumped, in the others each alignment is tried.
ghost use Rattle.std.specs.Prelude.{◌≡◌, ◌↔◌, List, [], ◌∷◌, ◌++◌, ℕ, ◌+◌, ◌-◌, ◌*◌, ◌^◌, ◌≤◌, ◌<◌, T, length, get_or};
ghost use Rattle.std.specs.Option.{ForSome};
ghost use Rattle.stopper.specs.Paper.Table.{stoppers};
ghost use Rattle.symbols.specs.Paper.Symbols.{per, symbols_of};
ghost use Rattle.texts.specs.Paper.Hits.{listed};
ghost use Rattle.find.specs.Laws.Hits.{AfterStopper};
ghost use Rattle.jump.specs.Helpers.Counting.{number_at, Counts};
ghost use Rattle.jump.specs.Helpers.Hits.{occurs, Hit, hits_below, Grows};
ghost use Rattle.jump.specs.Helpers.Windows.{Safe, Lasts, first_of, Skipped};

use crate::counting::{Counted, count_near, number_of};
use crate::searched::Searched;
use crate::windows::{Sought, place_at};
use stopper::code::{GoodCode, stoppers_at};
use symbols::bits::{byte_of, per_byte};
use symbols::symbol::get;

// Whether symbols stand at symbol a, all of them among those that are searched.
fn same(searched: &Searched, symbols: &[u8], a: usize) -> bool
    requires { a + length symbols.now ≤ searched.now.h }
    ensures { result ≡ occurs searched.now.good.code searched.now.h searched.now.buf.now symbols.now a }
{
    for (j, y) in symbols.iter().enumerate() {
        if get(searched.good.code.k, searched.buf, a + j) != *y {
            return false;
        }
    }
    true
}

// Whether symbol a is the first or stands after a stopper.
fn after_stopper(good: GoodCode, buf: &[u8], a: usize) -> bool
    requires { a ≤ length (symbols_of good.code.k buf.now) }
    ensures { T result ↔ AfterStopper (stoppers good.code 0) (symbols_of good.code.k buf.now) a }
{
    a == 0 || u32::from(get(good.code.k, buf, a - 1)) < stoppers_at(good.code, 0)
}

// Whether a hit starts at symbol a.
fn is_hit(searched: &Searched, symbols: &[u8], a: usize) -> bool
    requires { a < searched.now.h }
    ensures { T result ↔ Hit searched.now.good.code searched.now.h searched.now.buf.now symbols.now a }
{
    if searched.h - a < symbols.len() {
        return false;
    }
    if !after_stopper(searched.good, searched.buf, a) {
        return false;
    }
    same(searched, symbols, a)
}

// Hits found, and how far codewords are counted.
#[derive(Clone, Copy)]
pub struct Found {
    pub total: u32,
    pub counted: Counted,
}

// One more hit, at symbol a. Codewords are counted only where the hit is listed.
fn note(searched: &Searched, a: usize, found: Found, slice: &mut [u32]) -> Found
    requires { (a ≤ searched.now.h) × Counts searched.now.good.code searched.now.buf.now a found.counted.next found.counted.ended × (found.total ≤ a) }
    ensures { let s = searched.now in (result.total ≡ found.total + 1) × Counts s.good.code s.buf.now a result.counted.next result.counted.ended × ((hits : List ℕ) → found.total ≡ length hits → Grows hits (hits ++ (number_at s.good.code s.buf.now a ∷ [])) slice.old slice.new) }
{
    let mut counted = found.counted;
    let at = found.total as usize;
    if at < slice.len() {
        counted = count_near(searched, counted, a);
        slice[at] = number_of(searched.good, searched.buf, counted, a);
    }
    Found {
        total: found.total + 1,
        counted,
    }
}

// The windows of a roll: what is searched, what is sought in it, the table of jumps, and the last byte that each alignment has in a window.
#[derive(Clone, Copy)]
pub struct Windows<'a> {
    pub searched: Searched<'a>,
    pub sought: Sought<'a>,
    pub t: &'a [u8; 8192],
    pub last: Option<[u8; 4]>,
    ghost alike: { sought.good.code.k ≡ searched.good.code.k },
    ghost safe: { Safe searched.good.code.k sought.v sought.symbols.now t.now },
    ghost ends: { let k = searched.good.code.k in ForSome last (λ row. (1 < sought.v.wide) × Lasts k sought.v sought.symbols.now row (per k)) },
}

// Whether a hit starts at symbol a, one of those that the window from byte f on is for. The window's last byte is asked first: at most alignments it is another.
fn is_hit_in(windows: &Windows, f: usize, a: usize) -> bool
    requires { let s = windows.now.searched in let k = s.good.code.k in let v = windows.now.sought.v in ((f + v.wide) * per k ≤ s.h) × (first_of k v.free f ≤ a) × (a ≤ f * per k + v.free) }
    ensures { let s = windows.now.searched in T result ↔ Hit s.good.code s.h s.buf.now windows.now.sought.symbols.now a }
{
    let searched = &windows.searched;
    let Sought { symbols, v, .. } = windows.sought;
    let per = per_byte(searched.good.code.k);
    if let Some(row) = windows.last
        && searched.buf[f + v.wide - 1] != row[f * per + v.free - a]
    {
        return false;
    }
    is_hit(searched, symbols, a)
}

// The hits at the symbols that the window from byte f on is for.
fn try_window(windows: &Windows, f: usize, before: Found, slice: &mut [u32]) -> Found
    requires { let s = windows.now.searched in let v = windows.now.sought.v in let first = first_of s.good.code.k v.free f in let hits = hits_below s.good.code s.h s.buf.now windows.now.sought.symbols.now in
        ((f + v.wide) * per s.good.code.k ≤ s.h) × Counts s.good.code s.buf.now first before.counted.next before.counted.ended × (before.total ≡ length (hits first)) }
    ensures { let s = windows.now.searched in let v = windows.now.sought.v in let first = first_of s.good.code.k v.free f in let next = first_of s.good.code.k v.free (f + 1) in let hits = hits_below s.good.code s.h s.buf.now windows.now.sought.symbols.now in
        Counts s.good.code s.buf.now next result.counted.next result.counted.ended × (result.total ≡ length (hits next)) × Grows (hits first) (hits next) slice.old slice.new }
{
    let searched = &windows.searched;
    let v = windows.sought.v;
    let per = per_byte(searched.good.code.k);
    let end = f * per + v.free + 1;
    let mut found = before;
    for a in end.saturating_sub(per)..end {
        if is_hit_in(windows, f, a) {
            found = note(searched, a, found, slice);
        }
    }
    found
}

// How far to go from a window of which the table says `place`: on to there, or if it is 0 by all places, and then `beyond`, as far as from the next.
fn ahead_of(places: usize, place: usize, beyond: usize) -> usize
    requires { (place ≤ places) × (places ≤ 255) × (beyond ≤ 765) }
    ensures { ((place ≡ 0) → result ≡ places + beyond) × ((0 < place) → result ≡ places - place) × (result ≤ places + beyond) }
{
    if place == 0 {
        places + beyond
    } else {
        places - place
    }
}

// Windows with keys of two bytes, jumped from the one that ends with byte `from` on, up to one to be tried, or as long as three more follow: one branch for four where no key stands in the pattern.
fn pass(buf: &[u8], places: usize, t: &[u8; 8192], full: usize, from: usize) -> usize
    requires { (0 < places) × (places ≤ 255) × ((x : ℕ) → get_or t.now x 0 ≤ places) × (full ≤ length buf.now) × (full ≤ 2 ^ 24) × (0 < from) × (from ≤ full + places) }
    ensures { (from ≤ result) × (result ≤ full + places) × Skipped 1 places t.now buf.now from result }
{
    let mut e = from;
    // A while: the table says how far it goes on.
    while e + 3 * places < full {
        let second = e + places;
        let third = second + places;
        let fourth = third + places;
        let at_first = place_at(1, t, buf, e);
        let at_second = place_at(1, t, buf, second);
        let at_third = place_at(1, t, buf, third);
        let at_fourth = place_at(1, t, buf, fourth);
        if at_first + at_second + at_third + at_fourth == 0 {
            e = fourth + places;
        } else {
            let from_third = ahead_of(places, at_third, places - at_fourth);
            let from_second = ahead_of(places, at_second, from_third);
            let ahead = ahead_of(places, at_first, from_second);
            if ahead == 0 {
                return e;
            }
            e += ahead;
        }
    }
    e
}

// Windows jumped from the one that ends with byte `from` on, up to one whose last key the table has at the last place, or past the last. A key that stands nowhere has a branch of its own: foreseen, that jump does not wait for the table.
fn skip(buf: &[u8], back: usize, places: usize, t: &[u8; 8192], full: usize, from: usize) -> usize
    requires { (back ≤ 1) × (0 < places) × (places ≤ 255) × ((x : ℕ) → get_or t.now x 0 ≤ places) × (full ≤ length buf.now) × (full ≤ 2 ^ 24) × (back ≤ from) × (from < full + (places + back)) }
    ensures { (from ≤ result) × (result < full + (places + back)) × Skipped back places t.now buf.now from result }
{
    let mut e = if back == 1 {
        pass(buf, places, t, full, from)
    } else {
        from
    };
    // A while: the table says how far it goes on.
    while e < full {
        let place = place_at(back, t, buf, e);
        if place == 0 {
            e += places;
        } else if place == places {
            return e;
        } else {
            e += places - place;
        }
    }
    e
}

// All windows: the total of all hits; the first of them are listed as far as the slice goes.
pub fn scan(windows: &Windows, slice: &mut [u32]) -> u32
    ensures total { let s = windows.now.searched in result ≡ length (hits_below s.good.code s.h s.buf.now windows.now.sought.symbols.now s.h) }
    ensures list { let s = windows.now.searched in slice.new ≡ listed (hits_below s.good.code s.h s.buf.now windows.now.sought.symbols.now s.h) slice.old }
{
    let searched = &windows.searched;
    let buf = searched.buf;
    let v = windows.sought.v;
    let t = windows.t;
    let full = byte_of(searched.good.code.k, searched.h);
    let mut found = Found {
        total: 0,
        counted: Counted { next: 0, ended: 0 },
    };
    let mut e = skip(buf, v.back, v.places, t, full, v.wide - 1);
    // A while: the table says how far it goes on.
    while e < full {
        found = try_window(windows, e + 1 - v.wide, found, slice);
        e = skip(buf, v.back, v.places, t, full, e + 1);
    }
    found.total
}
