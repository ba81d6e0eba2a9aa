// Whole bytes: one read from any symbol on, and runs of them moved: the `up` and `down` of `each`, in bytes in place of symbols.
ghost use Rattle.std.specs.Prelude.{◌≡◌, [], ◌∷◌, ◌+◌, ◌-◌, ◌*◌, ◌≤◌, ◌<◌, length};
ghost use Rattle.ground.specs.Paper.Runs.{run};
ghost use Rattle.ground.specs.Helpers.Moved.{moved_up, moved_down};
ghost use Rattle.symbols.specs.Paper.Symbols.{per, symbols_of};
ghost use Rattle.symbols.specs.Helpers.Widths.{Width};

use crate::{bits, size};

// The byte that the symbols make from symbol `place` of byte j on.
pub fn window(k: u8, buf: &[u8], j: usize, place: u8) -> u8
    requires { (Width k) × (place < per k) × (j * per k + place + per k ≤ length (symbols_of k buf.now)) }
    ensures { symbols_of k (result ∷ []) ≡ run (symbols_of k buf.now) (j * per k + place) (j * per k + place + per k) }
{
    if place == 0 {
        return buf[j];
    }
    bits::join(buf[j], buf[j + 1], k * place)
}

// The bytes from `first` to `last` take the symbols that stand `by` places below them.
pub fn up(k: u8, buf: &mut [u8], first: usize, last: usize, by: usize)
    requires { (Width k) × (first ≤ last) × (by ≤ first * per k) × (last ≤ length buf.old) }
    ensures { symbols_of k buf.new ≡ moved_up (symbols_of k buf.old) (first * per k - by) (last * per k - by) by }
{
    let back = size::bytes_for(k, by);
    let place = size::unused(k, by) as u8;
    for j in (first..last).rev() {
        buf[j] = window(k, buf, j - back, place);
    }
}

// The bytes from `first` to `last` take the symbols that stand `by` places above them.
pub fn down(k: u8, buf: &mut [u8], first: usize, last: usize, by: usize)
    requires { (Width k) × (first ≤ last) × (last * per k + by ≤ length (symbols_of k buf.old)) }
    ensures { symbols_of k buf.new ≡ moved_down (symbols_of k buf.old) (first * per k + by) (last * per k + by) by }
{
    let ahead = bits::byte_of(k, by);
    let place = bits::place_in_byte(k, by) as u8;
    for j in first..last {
        buf[j] = window(k, buf, j + ahead, place);
    }
}
