// Symbols stored one after the other, each byte once: those of an unfinished byte wait as bits.
ghost use Rattle.std.specs.Prelude.{◌≡◌, [], ◌+◌, ◌*◌, ◌/◌, ◌%◌, ◌^◌, ◌≤◌, ◌<◌, length, take};
ghost use Rattle.ground.specs.Paper.Runs.{over};
ghost use Rattle.ground.specs.Helpers.Below.{Below};
ghost use Rattle.symbols.specs.Paper.Symbols.{per, symbols_of};
ghost use Rattle.symbols.specs.Helpers.Widths.{Width};
ghost use Rattle.symbols.specs.Helpers.Gathered.{digits, Joins, gathered, up_to, Waiting, Added};

use crate::{bits, symbol};

// So many symbols wait for byte `next`, as the lowest bits of a number.
#[derive(Clone, Copy)]
pub struct Gather {
    pub bits: u64,
    pub count: usize,
    pub next: usize,
}

// At most 8 symbols as one number.
pub fn join_all(k: u8, row: &[u8]) -> u32
    requires { (Width k) × (Below (2 ^ k) row.now) × (length row.now ≤ 8) }
    ensures { Joins k row.now result }
{
    let mut bits: u32 = 0;
    for y in row {
        bits = (bits << k) + u32::from(*y);
    }
    bits
}

// From symbol p on: the symbols before it in its byte wait.
pub fn begin(k: u8, buf: &[u8], p: usize) -> Gather
    requires { (Width k) × (p ≤ length (symbols_of k buf.now)) }
    ensures few { (result.count < 4 * per k) × (result.bits < 2 ^ (k * result.count)) }
    ensures upto { up_to k result ≡ p }
    ensures symbols { gathered k result buf.now ≡ take p (symbols_of k buf.now) }
{
    let next = bits::byte_of(k, p);
    let count = bits::place_in_byte(k, p);
    if count == 0 {
        return Gather {
            bits: 0,
            count,
            next,
        };
    }
    let low = 8 - k * (count as u8);
    Gather {
        bits: u64::from(buf[next] >> low),
        count,
        next,
    }
}

// The lowest n bits.
fn lowest(bits: u64, n: usize) -> u64
    requires { n < 64 }
    ensures { result ≡ bits % 2 ^ n }
{
    bits & ((1 << n) - 1)
}

// n bits, above the `low` lowest.
fn piece(bits: u64, low: usize, n: usize) -> u8
    requires { (low < 64) × (n ≤ 8) }
    ensures { result ≡ bits / 2 ^ low % 2 ^ n }
{
    lowest(bits >> low, n) as u8
}

// The waiting symbols that fill bytes are stored.
fn store(k: u8, g: Gather, buf: &mut [u8]) -> Gather
    requires { (Width k) × (g.count < 8 * per k) × (g.bits < 2 ^ (k * g.count)) × (up_to k g ≤ length (symbols_of k buf.old)) }
    ensures { Added k g buf.old [] result buf.new }
{
    let per = bits::per_byte(k);
    let wide = usize::from(k);
    let end = g.next + bits::byte_of(k, g.count);
    let mut count = g.count;
    for next in g.next..end {
        count -= per;
        buf[next] = piece(g.bits, wide * count, 8);
    }
    Gather {
        bits: lowest(g.bits, wide * count),
        count,
        next: end,
    }
}

// A row of at most 8 symbols, given as one number, behind those before it. Bytes are stored when four are full.
pub fn add(k: u8, g: Gather, buf: &mut [u8], bits: u32, count: usize) -> Gather
    requires { (Width k) × Waiting k g buf.old count × (count ≤ 8) × (bits < 2 ^ (k * count)) }
    ensures { Added k g buf.old (digits (2 ^ k) count bits) result buf.new }
{
    let all = Gather {
        bits: (g.bits << (usize::from(k) * count)) + u64::from(bits),
        count: g.count + count,
        next: g.next,
    };
    if all.count < 4 * bits::per_byte(k) {
        return all;
    }
    store(k, all, buf)
}

// A row of any length.
pub fn add_each(k: u8, g: Gather, buf: &mut [u8], row: &[u8]) -> Gather
    requires { (Width k) × Waiting k g buf.old (length row.now) × (Below (2 ^ k) row.now) }
    ensures { Added k g buf.old row.now result buf.new }
{
    let mut all = g;
    for y in row {
        all = add(k, all, buf, u32::from(*y), 1);
    }
    all
}

// The waiting symbols are stored, and nothing behind them changes.
pub fn finish(k: u8, g: Gather, buf: &mut [u8])
    requires { (Width k) × Waiting k g buf.old 0 }
    ensures { symbols_of k buf.new ≡ over (symbols_of k buf.old) (g.next * per k) (digits (2 ^ k) g.count g.bits) (up_to k g) }
{
    let first = g.next * bits::per_byte(k);
    let wide = usize::from(k);
    for i in 0..g.count {
        let y = piece(g.bits, wide * (g.count - 1 - i), wide);
        symbol::put(k, buf, first + i, y);
    }
}
