// All codewords from the first on: whole bytes by their moves, other symbols one by one.
ghost use Rattle.std.specs.Prelude.{◌≡◌, ◌*◌, ◌≤◌, ◌<◌, length, take, drop};
ghost use Rattle.symbols.specs.Paper.Symbols.{per, symbols_of};
ghost use Rattle.reading.specs.Paper.Reading.{row_reading};
ghost use Rattle.reading.specs.Helpers.Codewords.{row_of, scanned};
ghost use Rattle.moves.specs.Helpers.States.{open_from, Stuck};
ghost use Rattle.moves.specs.Helpers.Moves.{Rows, Here};

use crate::byte::{Parts, bounds_of, moved, moved_twice, moves_by_byte, part_of};
use reading::codewords::BadWord;
use reading::packed::Packed;
use stopper::code::{GoodCode, Ranks, base_of};
use symbols::bits::{byte_of, per_byte};
use symbols::symbol::get;

// So many symbols are read one by one before the moves are made: a roll that is bad early is not kept waiting for them.
const FIRST: usize = 1024;

// Of a shorter roll all symbols are read one by one: the moves would cost more than they save.
const FEW: usize = 2048;

// Before some symbol: the state of the codeword that is open there, and how many codewords ended, all good.
#[derive(Clone, Copy)]
pub struct Way {
    pub at: usize,
    pub x: u32,
    pub n: usize,
}

// Whole bytes, from byte way.at on, two by two: as far as their moves take the state.
fn by_moves(packed: &Packed, parts: &Parts, whole: usize, way: Way) -> Way
    requires { let s = packed.now in (whole * per s.ranks.good.code.k ≤ s.h) × (Rows s.ranks.good.code s.ranks.sigma parts.now)
        × (way.at ≤ whole) × (Here s.ranks.good.code s.ranks.sigma (row_of s) (way.at * per s.ranks.good.code.k) way.x way.n) × (way.x < 131072) }
    ensures { let s = packed.now in (result.at ≤ whole) × (Here s.ranks.good.code s.ranks.sigma (row_of s) (result.at * per s.ranks.good.code.k) result.x result.n) × (result.x < 131072) }
{
    let buf = packed.buf;
    let Parts {
        bound,
        times,
        plus,
        stops,
    } = *parts;
    let mut at = way.at;
    let mut x = u64::from(way.x);
    let mut n = way.n;
    // A while: two bytes a turn, and only as far as their moves take the state.
    while at + 1 < whole {
        let b = usize::from(buf[at]);
        let d = usize::from(buf[at + 1]);
        let z = x as u32;
        if u32::from(bound[b]) <= z {
            break;
        }
        let t = times[b];
        let p = plus[b];
        if u32::from(bound[d]) <= moved(t, p, z) {
            break;
        }
        x = moved_twice(t, p, times[d], plus[d], x);
        n += usize::from(stops[b]) + usize::from(stops[d]);
        at += 2;
    }
    Way { at, x: x as u32, n }
}

// Symbols one by one, up to symbol `upto`, or up to one at which the open codeword is bad whatever follows.
fn by_symbols(packed: &Packed, upto: usize, way: Way) -> Way
    requires { let s = packed.now in (upto ≤ s.h) × (way.at ≤ upto) × (Here s.ranks.good.code s.ranks.sigma (row_of s) way.at way.x way.n) × (way.x < 131072) }
    ensures { let s = packed.now in (result.at ≤ upto) × (Here s.ranks.good.code s.ranks.sigma (row_of s) result.at result.x result.n) × (result.x < 131072)
        × (result.at < upto → Stuck s.ranks.good.code s.ranks.sigma result.x (drop result.at (row_of s))) }
{
    let Packed { ranks, buf, .. } = *packed;
    let Ranks { good, sigma, .. } = ranks;
    let few = u32::from(good.code.s);
    let many = base_of(good) - few;
    let mut x = way.x;
    let mut n = way.n;
    for at in way.at..upto {
        let y = u32::from(get(good.code.k, buf, at));
        if y < few {
            if sigma <= x * few + y {
                return Way { at, x, n };
            }
            x = 0;
            n += 1;
        } else {
            let next = x * many + (y - few + 1);
            if sigma <= next {
                return Way { at, x, n };
            }
            x = next;
        }
    }
    Way { at: upto, x, n }
}

// The first symbol of the codeword that is open before symbol `at`: behind the last stopper before it.
fn opened(good: GoodCode, buf: &[u8], at: usize) -> usize
    requires { at ≤ length (symbols_of good.code.k buf.now) }
    ensures { result ≡ open_from good.code 0 0 (take at (symbols_of good.code.k buf.now)) }
{
    for p in (0..at).rev() {
        if get(good.code.k, buf, p) < good.code.s {
            return p + 1;
        }
    }
    0
}

// The whole bytes from byte way.at on.
fn by_bytes(packed: &Packed, whole: usize, way: Way) -> Way
    requires { let s = packed.now in (whole * per s.ranks.good.code.k ≤ s.h)
        × (way.at ≤ whole) × (Here s.ranks.good.code s.ranks.sigma (row_of s) (way.at * per s.ranks.good.code.k) way.x way.n) × (way.x < 131072) }
    ensures { let s = packed.now in (result.at ≤ whole) × (Here s.ranks.good.code s.ranks.sigma (row_of s) (result.at * per s.ranks.good.code.k) result.x result.n) × (result.x < 131072) }
{
    let t = moves_by_byte(packed.ranks);
    let parts = Parts {
        bound: &bounds_of(&t),
        times: &part_of(&t, 8),
        plus: &part_of(&t, 0),
        stops: &part_of(&t, 25),
    };
    by_moves(packed, &parts, whole, way)
}

// What a way says that went as far as it could.
fn told(packed: &Packed, way: Way) -> Result<usize, BadWord>
    requires { let s = packed.now in (way.at ≤ s.h) × (Here s.ranks.good.code s.ranks.sigma (row_of s) way.at way.x way.n)
        × (way.at < s.h → Stuck s.ranks.good.code s.ranks.sigma way.x (drop way.at (row_of s))) }
    ensures { let s = packed.now in result ≡ scanned (row_reading s.ranks.good.code s.ranks.sigma (row_of s) 0) }
{
    if way.at == packed.h && way.x == 0 {
        return Ok(way.n);
    }
    Err(BadWord {
        first: opened(packed.ranks.good, packed.buf, way.at),
    })
}

// As read_all, where there are so many symbols.
fn read_bytes(packed: &Packed) -> Result<usize, BadWord>
    requires { 1024 ≤ packed.now.h }
    ensures { let s = packed.now in result ≡ scanned (row_reading s.ranks.good.code s.ranks.sigma (row_of s) 0) }
{
    let k = packed.ranks.good.code.k;
    let few = by_symbols(packed, FIRST, Way { at: 0, x: 0, n: 0 });
    if few.at < FIRST {
        return told(packed, few);
    }
    let begun = Way {
        at: byte_of(k, FIRST),
        ..few
    };
    let bytes = by_bytes(packed, byte_of(k, packed.h), begun);
    let rest = Way {
        at: bytes.at * per_byte(k),
        ..bytes
    };
    let all = by_symbols(packed, packed.h, rest);
    told(packed, all)
}

// All codewords from the first on: how many, or where the first bad one begins.
pub fn read_all(packed: &Packed) -> Result<usize, BadWord>
    ensures { let s = packed.now in result ≡ scanned (row_reading s.ranks.good.code s.ranks.sigma (row_of s) 0) }
{
    if FEW <= packed.h {
        return read_bytes(packed);
    }
    let all = by_symbols(packed, packed.h, Way { at: 0, x: 0, n: 0 });
    told(packed, all)
}
