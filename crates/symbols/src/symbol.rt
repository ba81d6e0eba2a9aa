// One symbol read or stored.
ghost use Rattle.std.specs.Prelude.{◌≡◌, ◌^◌, ◌<◌, length, get_or, set};
ghost use Rattle.symbols.specs.Paper.Symbols.{symbols_of};
ghost use Rattle.symbols.specs.Helpers.Widths.{Width};

use crate::bits;

pub fn get(k: u8, buf: &[u8], i: usize) -> u8
    requires { (Width k) × (i < length (symbols_of k buf.now)) }
    ensures { result ≡ get_or (symbols_of k buf.now) i 0 }
{
    bits::cut_out(buf[bits::byte_of(k, i)], k, bits::shift_of(k, i))
}

pub fn put(k: u8, buf: &mut [u8], i: usize, y: u8)
    requires { (Width k) × (i < length (symbols_of k buf.old)) × (y < 2 ^ k) }
    ensures { symbols_of k buf.new ≡ set (symbols_of k buf.old) i y }
{
    let at = bits::byte_of(k, i);
    let low = bits::shift_of(k, i);
    buf[at] = bits::laid_in(buf[at], k, low, y);
}
