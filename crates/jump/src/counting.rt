// Characters numbered by the codewords that end before them.
ghost use Rattle.std.specs.Prelude.{◌≡◌, [], ◌∷◌, ◌+◌, ◌*◌, ◌/◌, ◌%◌, ◌^◌, ◌≤◌, ◌<◌, length};
ghost use Rattle.stopper.specs.Paper.Table.{stoppers};
ghost use Rattle.symbols.specs.Paper.Symbols.{per, symbols_of};
ghost use Rattle.sound.specs.Helpers.Ends.{stops, stops_by_byte};
ghost use Rattle.jump.specs.Helpers.Counting.{Counts, number_at};

use crate::searched::Searched;
use sound::ends::stops_of_four;
use stopper::code::{GoodCode, stoppers_at};
use symbols::bits::{byte_of, per_byte};
use symbols::symbol::get;

// How many bytes were counted, and how many codewords end in them.
#[derive(Clone, Copy)]
pub struct Counted {
    pub next: usize,
    pub ended: u32,
}

// The continuers among the four symbols of a byte: how many of its third and fourth, and 16 times how many of its first and second. Every other symbol has four bits to itself, and what the stoppers lack of 4, added to it, carries into the third of them if it is a continuer.
fn continuers_of(good: GoodCode, b: u8) -> u8
    requires { good.code.k ≡ 2 }
    ensures { (result % 16 + result / 16 + stops (stoppers good.code) 0 (symbols_of good.code.k (b ∷ [])) ≡ 4) × (result % 16 ≤ 2) × (result / 16 ≤ 2) }
{
    let added = 17 * (4 - stoppers_at(good.code, 0) as u8);
    let odd = b / 4 % 4 + 16 * (b / 64) + added;
    let even = b % 4 + 16 * (b / 16 % 4) + added;
    odd / 4 % 2 + 16 * (odd / 64 % 2) + (even / 4 % 2 + 16 * (even / 64 % 2))
}

// How many codewords end in the 48 bytes from byte i on, of four symbols each. A turn takes a byte of each third, and adds up the two sums once for the three; the compiler takes the 16 turns side by side.
fn ended_in_fours(good: GoodCode, buf: &[u8], i: usize) -> u8
    requires { (good.code.k ≡ 2) × (i + 48 ≤ length buf.now) }
    ensures { number_at good.code buf.now (i * per good.code.k) + result ≡ number_at good.code buf.now ((i + 48) * per good.code.k) }
{
    let mut continuers = 0;
    for j in 0..16 {
        let first = continuers_of(good, buf[i + j]);
        let second = continuers_of(good, buf[i + 16 + j]);
        let third = continuers_of(good, buf[i + 32 + j]);
        let sums = first + second + third;
        continuers += sums % 16 + sums / 16;
    }
    192 - continuers
}

// How many codewords end in the 48 bytes from byte i on. Of two symbols each, they are counted by a sum of 8 bits, so that the compiler takes 16 at once; a loop over 32 it would unroll and count byte by byte.
fn ended_in_block(good: GoodCode, buf: &[u8], i: usize) -> u8
    requires { i + 48 ≤ length buf.now }
    ensures { number_at good.code buf.now (i * per good.code.k) + result ≡ number_at good.code buf.now ((i + 48) * per good.code.k) }
{
    if good.code.k == 2 {
        return ended_in_fours(good, buf, i);
    }
    let mut n = 0;
    for j in 0..48 {
        n += stops_of_four(good, buf[i + j]);
    }
    n
}

// Codewords counted on towards byte `end`, as far as whole blocks lie before it.
fn count_blocks(good: GoodCode, buf: &[u8], counted: Counted, end: usize) -> Counted
    requires { (end ≤ length buf.now) × (end * per good.code.k ≤ 2 ^ 24) × Counts good.code buf.now (end * per good.code.k) counted.next counted.ended }
    ensures { Counts good.code buf.now (end * per good.code.k) result.next result.ended × (end < result.next + 48) }
{
    let Counted {
        mut next,
        mut ended,
    } = counted;
    // A while: a turn takes a whole block, and what is left before the end is no block.
    while 48 <= end - next {
        ended += u32::from(ended_in_block(good, buf, next));
        next += 48;
    }
    Counted { next, ended }
}

// Codewords counted on up to byte `end`, byte by byte.
fn count_bytes(
    good: GoodCode,
    stops: &[u8; 256],
    buf: &[u8],
    counted: Counted,
    end: usize,
) -> Counted
    requires { (stops.now ≡ stops_by_byte good.code) × (end ≤ length buf.now) × (end * per good.code.k ≤ 2 ^ 24) × Counts good.code buf.now (end * per good.code.k) counted.next counted.ended }
    ensures { (result.next ≡ end) × Counts good.code buf.now (end * per good.code.k) result.next result.ended }
{
    let mut ended = counted.ended;
    for b in &buf[counted.next..end] {
        ended += u32::from(stops[usize::from(*b)]);
    }
    Counted { next: end, ended }
}

// Codewords counted on up to the byte of symbol a.
fn count_to(good: GoodCode, stops: &[u8; 256], buf: &[u8], counted: Counted, a: usize) -> Counted
    requires { (stops.now ≡ stops_by_byte good.code) × (a ≤ length (symbols_of good.code.k buf.now)) × (a ≤ 2 ^ 24) × Counts good.code buf.now a counted.next counted.ended }
    ensures { Counts good.code buf.now a result.next result.ended × (a < (result.next + 1) * per good.code.k) }
{
    let end = byte_of(good.code.k, a);
    let most = count_blocks(good, buf, counted, end);
    count_bytes(good, stops, buf, most, end)
}

// The number of the character that starts at symbol a, whose byte is the next to be counted.
pub fn number_of(good: GoodCode, buf: &[u8], counted: Counted, a: usize) -> u32
    requires { (a ≤ length (symbols_of good.code.k buf.now)) × (a ≤ 2 ^ 24) × Counts good.code buf.now a counted.next counted.ended × (a < (counted.next + 1) * per good.code.k) }
    ensures { result ≡ number_at good.code buf.now a }
{
    let s = stoppers_at(good.code, 0);
    let mut number = counted.ended;
    for i in counted.next * per_byte(good.code.k)..a {
        if u32::from(get(good.code.k, buf, i)) < s {
            number += 1;
        }
    }
    number
}

// Codewords counted up to the byte of symbol a by those that end from there on.
fn count_back(searched: &Searched, a: usize) -> Counted
    requires { a ≤ searched.now.h }
    ensures { Counts searched.now.good.code searched.now.buf.now a result.next result.ended × (a < (result.next + 1) * per searched.now.good.code.k) }
{
    let Searched {
        good,
        stops,
        buf,
        h,
        n,
    } = *searched;
    let next = byte_of(good.code.k, a);
    let end = h - next * per_byte(good.code.k);
    let rest = &buf[next..];
    let counted = count_to(good, stops, rest, Counted { next: 0, ended: 0 }, end);
    Counted {
        next,
        ended: n - number_of(good, rest, counted, end),
    }
}

// Codewords counted up to the byte of symbol a, on from where they are counted or back from the end, whichever is nearer.
pub fn count_near(searched: &Searched, counted: Counted, a: usize) -> Counted
    requires { (a ≤ searched.now.h) × Counts searched.now.good.code searched.now.buf.now a counted.next counted.ended }
    ensures { Counts searched.now.good.code searched.now.buf.now a result.next result.ended × (a < (result.next + 1) * per searched.now.good.code.k) }
{
    if searched.h - a < a - counted.next * per_byte(searched.good.code.k) {
        count_back(searched, a)
    } else {
        count_to(searched.good, searched.stops, searched.buf, counted, a)
    }
}
