// Runs of symbols, one symbol after the other.
ghost use Rattle.std.specs.Prelude.{◌≡◌, ◌+◌, ◌^◌, ◌≤◌, ◌<◌, length};
ghost use Rattle.ground.specs.Helpers.Moved.{cleared, moved_up, moved_down};
ghost use Rattle.symbols.specs.Paper.Symbols.{symbols_of};
ghost use Rattle.symbols.specs.Helpers.Widths.{Width};

use crate::symbol;

pub fn clear(k: u8, buf: &mut [u8], from: usize, to: usize)
    requires { (Width k) × (from ≤ to) × (to ≤ length (symbols_of k buf.old)) }
    ensures { symbols_of k buf.new ≡ cleared (symbols_of k buf.old) from to }
{
    for i in from..to {
        symbol::put(k, buf, i, 0);
    }
}

// From the last symbol to the first, so that none is overwritten before it is moved.
pub fn up(k: u8, buf: &mut [u8], from: usize, to: usize, by: usize)
    requires { (Width k) × (from ≤ to) × (to + by ≤ length (symbols_of k buf.old)) × (to + by < 2 ^ 64) }
    ensures { symbols_of k buf.new ≡ moved_up (symbols_of k buf.old) from to by }
{
    for i in (from..to).rev() {
        let y = symbol::get(k, buf, i);
        symbol::put(k, buf, i + by, y);
    }
}

// From the first symbol to the last, so that none is overwritten before it is moved.
pub fn down(k: u8, buf: &mut [u8], from: usize, to: usize, by: usize)
    requires { (Width k) × (by ≤ from) × (from ≤ to) × (to ≤ length (symbols_of k buf.old)) }
    ensures { symbols_of k buf.new ≡ moved_down (symbols_of k buf.old) from to by }
{
    for i in from..to {
        let y = symbol::get(k, buf, i);
        symbol::put(k, buf, i - by, y);
    }
}
