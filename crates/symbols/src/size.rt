// How many bytes so many symbols take, and how many symbols a buffer holds.
ghost use Rattle.std.specs.Prelude.{◌≡◌, ◌-◌, ◌*◌};
ghost use Rattle.symbols.specs.Paper.Symbols.{per, bytes_for, room};
ghost use Rattle.symbols.specs.Helpers.Widths.{Width};

use crate::bits;
use ground;

pub fn bytes_for(k: u8, h: usize) -> usize
    requires { Width k }
    ensures { result ≡ bytes_for k h }
{
    let whole = bits::byte_of(k, h);
    if bits::place_in_byte(k, h) == 0 {
        whole
    } else {
        whole + 1
    }
}

// Symbols of the last byte that h symbols leave unused.
pub fn unused(k: u8, h: usize) -> usize
    requires { Width k }
    ensures { result ≡ bytes_for k h * per k - h }
{
    let used = bits::place_in_byte(k, h);
    if used == 0 {
        0
    } else {
        bits::per_byte(k) - used
    }
}

// Compared before it is multiplied, so that nothing wraps.
pub fn room_of(k: u8, bytes: usize) -> usize
    requires { Width k }
    ensures { result ≡ room k bytes }
{
    let limit = ground::limit();
    if limit <= bytes {
        return limit;
    }
    (bytes * bits::per_byte(k)).min(limit)
}
