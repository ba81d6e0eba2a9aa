// Runs of symbols cleared or moved: the ends symbol by symbol, what lies between them by whole bytes; and a run asked whether it is all 0.
ghost use Rattle.std.specs.Prelude.{◌≡◌, ◌+◌, ◌*◌, ◌^◌, ◌≤◌, ◌<◌, length};
ghost use Rattle.ground.specs.Helpers.Bound.{limit_bound};
ghost use Rattle.ground.specs.Paper.Runs.{run};
ghost use Rattle.ground.specs.Paper.Rows.{all_zero};
ghost use Rattle.ground.specs.Helpers.Moved.{cleared, moved_up, moved_down};
ghost use Rattle.symbols.specs.Paper.Symbols.{per, bytes_for, symbols_of};
ghost use Rattle.symbols.specs.Helpers.Widths.{Width};

use crate::symbol::get;
use crate::{bits, each, size, whole};

pub fn clear(k: u8, buf: &mut [u8], from: usize, to: usize)
    requires { (Width k) × (from ≤ to) × (to ≤ length (symbols_of k buf.old)) }
    ensures { symbols_of k buf.new ≡ cleared (symbols_of k buf.old) from to }
{
    let first = size::bytes_for(k, from);
    let last = bits::byte_of(k, to);
    if last <= first {
        each::clear(k, buf, from, to);
        return;
    }
    let per = bits::per_byte(k);
    each::clear(k, buf, from, first * per);
    buf[first..last].fill(0);
    each::clear(k, buf, last * per, to);
}

// The unused symbols of the last byte that h symbols take.
pub fn clear_unused(k: u8, buf: &mut [u8], h: usize)
    requires { (Width k) × (h ≤ length (symbols_of k buf.old)) × (h ≤ limit_bound) }
    ensures { symbols_of k buf.new ≡ cleared (symbols_of k buf.old) h (bytes_for k h * per k) }
{
    clear(k, buf, h, h + size::unused(k, h));
}

// From the last symbol to the first, so that none is overwritten before it is moved.
pub fn up(k: u8, buf: &mut [u8], from: usize, to: usize, by: usize)
    requires { (Width k) × (from ≤ to) × (to + by ≤ length (symbols_of k buf.old)) × (to + by < 2 ^ 64) }
    ensures { symbols_of k buf.new ≡ moved_up (symbols_of k buf.old) from to by }
{
    let first = size::bytes_for(k, from + by);
    let last = bits::byte_of(k, to + by);
    if last <= first {
        each::up(k, buf, from, to, by);
        return;
    }
    let per = bits::per_byte(k);
    each::up(k, buf, last * per - by, to, by);
    whole::up(k, buf, first, last, by);
    each::up(k, buf, from, first * per - by, by);
}

// From the first symbol to the last, so that none is overwritten before it is moved.
pub fn down(k: u8, buf: &mut [u8], from: usize, to: usize, by: usize)
    requires { (Width k) × (by ≤ from) × (from ≤ to) × (to ≤ length (symbols_of k buf.old)) }
    ensures { symbols_of k buf.new ≡ moved_down (symbols_of k buf.old) from to by }
{
    let first = size::bytes_for(k, from - by);
    let last = bits::byte_of(k, to - by);
    if last <= first {
        each::down(k, buf, from, to, by);
        return;
    }
    let per = bits::per_byte(k);
    each::down(k, buf, from, first * per + by, by);
    whole::down(k, buf, first, last, by);
    each::down(k, buf, last * per + by, to, by);
}

// Whether the symbols from `from` up to `to` are all 0.
pub fn all_zero(k: u8, buf: &[u8], from: usize, to: usize) -> bool
    requires { (Width k) × (from ≤ to) × (to ≤ length (symbols_of k buf.now)) }
    ensures { result ≡ all_zero (run (symbols_of k buf.now) from to) }
{
    (from..to).all(|i| get(k, buf, i) == 0)
}
