// What the symbols of a byte do to the state of a reading, which is one number (specs/Helpers/States, Moves).
ghost use Rattle.std.specs.Prelude.{◌≡◌, List, ◌∷◌, ℕ, ◌+◌, ◌*◌, ◌≤◌, ◌<◌};
ghost use Rattle.stopper.specs.Paper.Table.{base, stoppers};
ghost use Rattle.moves.specs.Helpers.Moves.{Moves, Small, In, SymbolBefore, Longer, MovesByByte, bound_in, times_in, plus_in, stops_in, part_in, PartIn};

use stopper::code::{GoodCode, Ranks, base_of, stoppers_at};
use symbols::bits::per_byte;

// A state below the bound becomes so many times as much, plus so much, and so many codewords end.
#[derive(Clone, Copy)]
pub struct Move {
    pub bound: u32,
    pub times: u32,
    pub plus: u32,
    pub stops: u32,
}

// The parts of the moves of all byte values, each in a row of its own: so a loop over bytes is fastest.
#[derive(Clone, Copy)]
pub struct Parts<'a> {
    pub bound: &'a [u16; 256],
    pub times: &'a [u8; 256],
    pub plus: &'a [u8; 256],
    pub stops: &'a [u8; 256],
}

// Of no state.
fn never() -> Move
    ensures { (Small result) × (result.bound ≡ 0) }
{
    Move {
        bound: 0,
        times: 0,
        plus: 0,
        stops: 0,
    }
}

// How many numbers there are of which d times as much is at most n.
fn upto(n: u32, d: u32) -> u32
    requires { (n < 511) × (0 < d) }
    ensures { ((x : ℕ) → x < result → x * d ≤ n) × (result ≤ n + 1) }
{
    n / d + 1
}

// A stopper before what m does.
fn stop_before(ranks: Ranks, y: u32, m: Move) -> Move
    requires { (Small m) × (y < stoppers ranks.good.code 0) }
    ensures { let c = ranks.good.code in (Small result) × ((w : List ℕ) → Moves c ranks.sigma w m → Moves c ranks.sigma (y ∷ w) result) }
{
    if m.bound == 0 || ranks.sigma <= y || 127 <= m.stops {
        return never();
    }
    Move {
        bound: upto(ranks.sigma - y - 1, stoppers_at(ranks.good.code, 0)),
        times: 0,
        plus: m.plus,
        stops: m.stops + 1,
    }
}

// A continuer before what m does.
fn more_before(good: GoodCode, y: u32, m: Move) -> Move
    requires { (Small m) × (stoppers good.code 0 ≤ y) × (y < 16) }
    ensures { (Small result) × ((sigma : ℕ) (w : List ℕ) → Moves good.code sigma w m → Moves good.code sigma (y ∷ w) result) }
{
    let s = stoppers_at(good.code, 0);
    let c = base_of(good) - s;
    let d = y - s + 1;
    let times = c * m.times;
    let plus = d * m.times + m.plus;
    if m.bound <= d || 255 < times || 255 < plus {
        return never();
    }
    Move {
        bound: upto(m.bound - d - 1, c),
        times,
        plus,
        stops: m.stops,
    }
}

// A symbol before what m does.
fn before(ranks: Ranks, y: u32, m: Move) -> Move
    requires { (Small m) × (y < 16) }
    ensures { let c = ranks.good.code in (Small result) × ((w : List ℕ) → Moves c ranks.sigma w m → Moves c ranks.sigma (y ∷ w) result) }
{
    if y < stoppers_at(ranks.good.code, 0) {
        stop_before(ranks, y, m)
    } else {
        more_before(ranks.good, y, m)
    }
}

// A move in one number, so that one load fetches it; and out of it.
fn in_one(m: Move) -> u32
    requires { Small m }
    ensures { In result m }
{
    m.plus + 256 * m.times + 65536 * m.bound + 33554432 * m.stops
}

fn out_of(e: u32) -> Move
    ensures { (In e result) × (Small result) }
{
    Move {
        bound: e / 65536 % 512,
        times: e / 256 % 256,
        plus: e % 256,
        stops: e / 33554432,
    }
}

// Symbol y before what the move e does.
fn symbol_before(ranks: Ranks, y: u32, e: u32) -> u32
    requires { y < 16 }
    ensures { SymbolBefore ranks.good.code ranks.sigma y e result }
{
    in_one(before(ranks, y, out_of(e)))
}

// The moves of all rows of one symbol more: t has those of `size` rows.
fn longer(ranks: Ranks, size: usize, t: &[u32; 256]) -> [u32; 256]
    requires { (0 < size) × (size * base ranks.good.code ≤ 256) }
    ensures { Longer ranks.good.code ranks.sigma size t.now result }
{
    let mut r = [0u32; 256];
    for y in 0..base_of(ranks.good) {
        for w in 0..size {
            r[y as usize * size + w] = symbol_before(ranks, y, t[w]);
        }
    }
    r
}

// The move of each byte value: of no symbols first, and then of one symbol more at a time.
pub fn moves_by_byte(ranks: Ranks) -> [u32; 256]
    ensures { MovesByByte ranks.good.code ranks.sigma result }
{
    let base = base_of(ranks.good) as usize;
    let mut t = [0u32; 256];
    t[0] = in_one(Move {
        bound: 256,
        times: 1,
        plus: 0,
        stops: 0,
    });
    let mut size: usize = 1;
    for _n in 0..per_byte(ranks.good.code.k) {
        t = longer(ranks, size, &t);
        size *= base;
    }
    t
}

// The bounds of moves in a row of their own; and the byte of each whose lowest bit is bit `low`. Loops over what is lent: an array's `map` takes the
// moves by value and copies them several times.
pub fn bounds_of(t: &[u32; 256]) -> [u16; 256]
    ensures { PartIn bound_in t.now 256 result }
{
    let mut r = [0u16; 256];
    for (b, e) in t.iter().enumerate() {
        r[b] = bound_of(*e) as u16;
    }
    r
}

pub fn part_of(t: &[u32; 256], low: u32) -> [u8; 256]
    requires { low < 32 }
    ensures { PartIn (part_in low) t.now 256 result }
{
    let mut r = [0u8; 256];
    for (b, e) in t.iter().enumerate() {
        r[b] = ((*e >> low) % 256) as u8;
    }
    r
}

// The state after a byte.
pub fn moved(times: u8, plus: u8, x: u32) -> u32
    requires { x < 512 }
    ensures { (result ≡ x * times + plus) × (result < 131072) }
{
    x * u32::from(times) + u32::from(plus)
}

// The state after two bytes: one multiplication waits for x. In 32 bits the compiler would make two of it again.
pub fn moved_twice(times: u8, plus: u8, times2: u8, plus2: u8, x: u64) -> u64
    requires { x < 512 }
    ensures { (result ≡ (x * times + plus) * times2 + plus2) × (result ≤ (x * times + plus) * 255 + 255) }
{
    let t = u32::from(times2);
    x * u64::from(u32::from(times) * t) + u64::from(u32::from(plus) * t + u32::from(plus2))
}

// The parts of a move in one number: its bound, what it does to the state, how many codewords it ends.
pub fn bound_of(e: u32) -> u32
    ensures { (result ≡ bound_in e) × (result < 512) }
{
    e / 65536 % 512
}

pub fn times_of(e: u32) -> u8
    ensures { result ≡ times_in e }
{
    (e / 256 % 256) as u8
}

pub fn plus_of(e: u32) -> u8
    ensures { result ≡ plus_in e }
{
    (e % 256) as u8
}

pub fn moved_by(e: u32, x: u32) -> u32
    requires { x < 512 }
    ensures { (result ≡ x * times_in e + plus_in e) × (result < 131072) }
{
    moved(times_of(e), plus_of(e), x)
}

pub fn ended(e: u32) -> usize
    ensures { (result ≡ stops_in e) × (result ≤ 127) }
{
    (e / 33554432) as usize
}
