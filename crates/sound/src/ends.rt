// Where codewords end, by their stoppers alone: enough in a sound roll.
ghost use Rattle.std.specs.Prelude.{◌≡◌, [], ◌∷◌, ◌*◌, ◌/◌, ◌≤◌, ◌<◌};
ghost use Rattle.ground.specs.Paper.Rows.{tab};
ghost use Rattle.stopper.specs.Paper.Table.{stoppers};
ghost use Rattle.symbols.specs.Paper.Symbols.{per, symbols_of};
ghost use Rattle.sound.specs.Helpers.Ends.{Ending, Passing, end_from, stops, stops_of_two, stops_by_byte};

use crate::stops::Stops;
use stopper::code::{Code, GoodCode, stoppers_at};
use stopper::reading::next_place;
use symbols::bits::{byte_of, per_byte, place_in_byte};
use symbols::symbol::get;

// The symbol after the codeword that starts at symbol p.
pub fn end_at(code: Code, buf: &[u8], p: usize) -> usize
    requires { Ending code buf.now p 1 }
    ensures { result ≡ end_from code buf.now p 1 }
{
    let mut place: u32 = 0;
    let mut q = p;
    // A while: how many symbols are passed comes from the text.
    while stoppers_at(code, place) <= u32::from(get(code.k, buf, q)) {
        place = next_place(place);
        q += 1;
    }
    q + 1
}

// How many of the two symbols of a byte are stoppers, each of four bits, by no branch: a loop over bytes counts many at once.
pub fn stops_of_four(good: GoodCode, b: u8) -> u8
    requires { good.code.k ≡ 4 }
    ensures { (result ≡ stops (stoppers good.code) 0 (symbols_of good.code.k (b ∷ []))) × (result ≤ 2) }
{
    let s = stoppers_at(good.code, 0) as u8;
    u8::from(b < 16 * s) + u8::from(b % 16 < s)
}

// How many of the four symbols of byte b are below s, each of two bits, at 256 * (s - 1) + b, for s of 1, 2 and 3.
const STOPS: [u8; 768] = *b"\
    \x04\x03\x03\x03\x03\x02\x02\x02\x03\x02\x02\x02\x03\x02\x02\x02\x03\x02\x02\x02\x02\x01\x01\x01\x02\x01\x01\x01\x02\x01\x01\x01\
    \x03\x02\x02\x02\x02\x01\x01\x01\x02\x01\x01\x01\x02\x01\x01\x01\x03\x02\x02\x02\x02\x01\x01\x01\x02\x01\x01\x01\x02\x01\x01\x01\
    \x03\x02\x02\x02\x02\x01\x01\x01\x02\x01\x01\x01\x02\x01\x01\x01\x02\x01\x01\x01\x01\x00\x00\x00\x01\x00\x00\x00\x01\x00\x00\x00\
    \x02\x01\x01\x01\x01\x00\x00\x00\x01\x00\x00\x00\x01\x00\x00\x00\x02\x01\x01\x01\x01\x00\x00\x00\x01\x00\x00\x00\x01\x00\x00\x00\
    \x03\x02\x02\x02\x02\x01\x01\x01\x02\x01\x01\x01\x02\x01\x01\x01\x02\x01\x01\x01\x01\x00\x00\x00\x01\x00\x00\x00\x01\x00\x00\x00\
    \x02\x01\x01\x01\x01\x00\x00\x00\x01\x00\x00\x00\x01\x00\x00\x00\x02\x01\x01\x01\x01\x00\x00\x00\x01\x00\x00\x00\x01\x00\x00\x00\
    \x03\x02\x02\x02\x02\x01\x01\x01\x02\x01\x01\x01\x02\x01\x01\x01\x02\x01\x01\x01\x01\x00\x00\x00\x01\x00\x00\x00\x01\x00\x00\x00\
    \x02\x01\x01\x01\x01\x00\x00\x00\x01\x00\x00\x00\x01\x00\x00\x00\x02\x01\x01\x01\x01\x00\x00\x00\x01\x00\x00\x00\x01\x00\x00\x00\
    \x04\x04\x03\x03\x04\x04\x03\x03\x03\x03\x02\x02\x03\x03\x02\x02\x04\x04\x03\x03\x04\x04\x03\x03\x03\x03\x02\x02\x03\x03\x02\x02\
    \x03\x03\x02\x02\x03\x03\x02\x02\x02\x02\x01\x01\x02\x02\x01\x01\x03\x03\x02\x02\x03\x03\x02\x02\x02\x02\x01\x01\x02\x02\x01\x01\
    \x04\x04\x03\x03\x04\x04\x03\x03\x03\x03\x02\x02\x03\x03\x02\x02\x04\x04\x03\x03\x04\x04\x03\x03\x03\x03\x02\x02\x03\x03\x02\x02\
    \x03\x03\x02\x02\x03\x03\x02\x02\x02\x02\x01\x01\x02\x02\x01\x01\x03\x03\x02\x02\x03\x03\x02\x02\x02\x02\x01\x01\x02\x02\x01\x01\
    \x03\x03\x02\x02\x03\x03\x02\x02\x02\x02\x01\x01\x02\x02\x01\x01\x03\x03\x02\x02\x03\x03\x02\x02\x02\x02\x01\x01\x02\x02\x01\x01\
    \x02\x02\x01\x01\x02\x02\x01\x01\x01\x01\x00\x00\x01\x01\x00\x00\x02\x02\x01\x01\x02\x02\x01\x01\x01\x01\x00\x00\x01\x01\x00\x00\
    \x03\x03\x02\x02\x03\x03\x02\x02\x02\x02\x01\x01\x02\x02\x01\x01\x03\x03\x02\x02\x03\x03\x02\x02\x02\x02\x01\x01\x02\x02\x01\x01\
    \x02\x02\x01\x01\x02\x02\x01\x01\x01\x01\x00\x00\x01\x01\x00\x00\x02\x02\x01\x01\x02\x02\x01\x01\x01\x01\x00\x00\x01\x01\x00\x00\
    \x04\x04\x04\x03\x04\x04\x04\x03\x04\x04\x04\x03\x03\x03\x03\x02\x04\x04\x04\x03\x04\x04\x04\x03\x04\x04\x04\x03\x03\x03\x03\x02\
    \x04\x04\x04\x03\x04\x04\x04\x03\x04\x04\x04\x03\x03\x03\x03\x02\x03\x03\x03\x02\x03\x03\x03\x02\x03\x03\x03\x02\x02\x02\x02\x01\
    \x04\x04\x04\x03\x04\x04\x04\x03\x04\x04\x04\x03\x03\x03\x03\x02\x04\x04\x04\x03\x04\x04\x04\x03\x04\x04\x04\x03\x03\x03\x03\x02\
    \x04\x04\x04\x03\x04\x04\x04\x03\x04\x04\x04\x03\x03\x03\x03\x02\x03\x03\x03\x02\x03\x03\x03\x02\x03\x03\x03\x02\x02\x02\x02\x01\
    \x04\x04\x04\x03\x04\x04\x04\x03\x04\x04\x04\x03\x03\x03\x03\x02\x04\x04\x04\x03\x04\x04\x04\x03\x04\x04\x04\x03\x03\x03\x03\x02\
    \x04\x04\x04\x03\x04\x04\x04\x03\x04\x04\x04\x03\x03\x03\x03\x02\x03\x03\x03\x02\x03\x03\x03\x02\x03\x03\x03\x02\x02\x02\x02\x01\
    \x03\x03\x03\x02\x03\x03\x03\x02\x03\x03\x03\x02\x02\x02\x02\x01\x03\x03\x03\x02\x03\x03\x03\x02\x03\x03\x03\x02\x02\x02\x02\x01\
    \x03\x03\x03\x02\x03\x03\x03\x02\x03\x03\x03\x02\x02\x02\x02\x01\x02\x02\x02\x01\x02\x02\x02\x01\x02\x02\x02\x01\x01\x01\x01\x00";

// A constant is built anew wherever it is read: once for a call.
fn stops_of_two() -> [u8; 768]
    ensures { result ≡ stops_of_two }
{
    STOPS
}

// How many symbols of two bits are below s, for each byte value.
fn stops_listed(s: u8) -> [u8; 256]
    requires { (0 < s) × (s < 4) }
    ensures { result ≡ tab (λ b. stops (λ _. s) 0 (symbols_of 2 (b ∷ []))) 0 256 }
{
    let table = stops_of_two();
    let first = 256 * (usize::from(s) - 1);
    let mut row = [0u8; 256];
    row.copy_from_slice(&table[first..first + 256]);
    row
}

// How many symbols of four bits are stoppers, for each byte value.
fn stops_counted(good: GoodCode) -> [u8; 256]
    requires { good.code.k ≡ 4 }
    ensures { result ≡ stops_by_byte good.code }
{
    let mut row = [0u8; 256];
    for (b, stops) in row.iter_mut().enumerate() {
        *stops = stops_of_four(good, b as u8);
    }
    row
}

// How many codewords end in a byte, for each byte value.
pub fn stops_by_byte(good: GoodCode) -> [u8; 256]
    ensures { result ≡ stops_by_byte good.code }
{
    if good.code.k == 2 {
        stops_listed(stoppers_at(good.code, 0) as u8)
    } else {
        stops_counted(good)
    }
}

// How many codewords from the first symbol of p's byte on end where `count` of them do from symbol p on.
fn from_byte(code: Code, buf: &[u8], p: usize, count: usize) -> usize
    requires { Ending code buf.now p count × (0 < count) }
    ensures { Passing code buf.now p count (p / per code.k * per code.k) result × (0 < result) }
{
    let s = stoppers_at(code, 0);
    let first = p - place_in_byte(code.k, p);
    let mut left = count;
    for q in (first..p).rev() {
        if u32::from(get(code.k, buf, q)) < s {
            left += 1;
        }
    }
    left
}

// The symbol after so many codewords from symbol p on, symbol by symbol.
fn pass_symbols(code: Code, buf: &[u8], p: usize, count: usize) -> usize
    requires { Ending code buf.now p count }
    ensures { result ≡ end_from code buf.now p count }
{
    let s = stoppers_at(code, 0);
    let mut q = p;
    let mut left = count;
    // A while: how many symbols are passed comes from the text.
    while 0 < left {
        if u32::from(get(code.k, buf, q)) < s {
            left -= 1;
        }
        q += 1;
    }
    q
}

// The symbol after so many codewords from symbol p on: bytes in which too few of them end are passed whole.
pub fn pass_ends(stops: &Stops, buf: &[u8], p: usize, count: usize) -> usize
    requires { Ending stops.now.good.code buf.now p count }
    ensures { result ≡ end_from stops.now.good.code buf.now p count }
{
    let code = stops.good.code;
    if count == 0 {
        return p;
    }
    let mut j = byte_of(code.k, p);
    let mut left = from_byte(code, buf, p, count);
    // A loop: how many bytes are passed comes from the text.
    loop {
        let ended = usize::from(stops.by_byte[usize::from(buf[j])]);
        if left <= ended {
            break;
        }
        left -= ended;
        j += 1;
    }
    pass_symbols(code, buf, j * per_byte(code.k), left)
}

// The symbol after so many codewords from the first on; if none is passed, no stops are counted.
pub fn pass_first(code: Code, buf: &[u8], count: usize) -> usize
    requires { Ending code buf.now 0 count }
    ensures { result ≡ end_from code buf.now 0 count }
{
    if count == 0 {
        return 0;
    }
    let good = GoodCode { code };
    let stops = Stops {
        good,
        by_byte: stops_by_byte(good),
    };
    pass_ends(&stops, buf, 0, count)
}
