// Windows of whole bytes in which a pattern is looked for, at all its alignments in a byte, and the table of jumps.
ghost use Rattle.std.specs.Prelude.{◌≡◌, ℕ, ◌+◌, ◌*◌, ◌/◌, ◌%◌, ◌^◌, ◌≤◌, ◌<◌, length, get_or, MatchOption};
ghost use Rattle.symbols.specs.Paper.Symbols.{per};
ghost use Rattle.symbols.specs.Helpers.Widths.{Width};
ghost use Rattle.jump.specs.Helpers.Windows.{number_from, Fits, key_of, says, Upto, Safe, Marks, Lasts};

use stopper::code::GoodCode;
use symbols::bits::{byte_of, per_byte, place_in_byte};

// A window is `wide` bytes. Each alignment of the pattern fills them but for at most `free` symbols before its first; the table has
// keys of one byte, or of two that are `back` apart, at `places` places of the window.
#[derive(Clone, Copy)]
pub struct Window {
    pub wide: usize,
    pub back: usize,
    pub places: usize,
    pub free: usize,
}

// A pattern's symbols in a good code, and the window in which they are looked for.
#[derive(Clone, Copy)]
pub struct Sought<'a> {
    pub good: GoodCode,
    pub symbols: &'a [u8],
    pub v: Window,
    ghost below: { (i : ℕ) → get_or symbols.now i 0 < 2 ^ good.code.k },
    ghost fits: { Fits good.code.k (length symbols.now) v },
}

// The widest windows of a pattern of so many symbols.
pub fn window_of(k: u8, long: usize) -> Window
    requires { (Width k) × (per k ≤ long) }
    ensures { Fits k long result }
{
    let wide = byte_of(k, long).min(255);
    let back = (wide / 3).min(1);
    Window {
        wide,
        back,
        places: wide - back,
        free: per_byte(k) - 1 - place_in_byte(k, long),
    }
}

// Where the table has a byte y, or y and the byte z behind it: of two bytes the upper 13 of the low 32 bits of a product, into which all their bits go.
fn key(back: usize, y: u8, z: u8) -> usize
    requires { back ≤ 1 }
    ensures { (result ≡ key_of back y z) × (result < 8192) }
{
    if back == 0 {
        usize::from(y)
    } else {
        (usize::from(y) + 256 * usize::from(z)) * 2654435761 % 4294967296 / 524288
    }
}

// What the table says of the window that ends with byte e.
pub fn place_at(back: usize, t: &[u8; 8192], buf: &[u8], e: usize) -> usize
    requires { (back ≤ 1) × (back ≤ e) × (e < length buf.now) }
    ensures { (result ≡ says back t.now buf.now e) × (result ≤ 255) }
{
    usize::from(t[key(back, buf[e - back], buf[e])])
}

// A symbol behind those of a byte, whose first is lost.
fn next_byte(k: u8, y: u8, x: u8) -> u8
    requires { (Width k) × (x < 2 ^ k) }
    ensures { result ≡ (y * 2 ^ k + x) % 256 }
{
    (y << k) + x
}

// The number that n symbols make, from symbol j on.
fn number_from(sought: &Sought, j: usize, n: usize) -> u8
    requires { (n ≤ per sought.now.good.code.k) × (j + n ≤ length sought.now.symbols.now) }
    ensures { result ≡ number_from sought.now.good.code.k sought.now.symbols.now j n }
{
    let k = sought.good.code.k;
    let mut b = 0;
    for x in &sought.symbols[j..j + n] {
        b = next_byte(k, b, *x);
    }
    b
}

// How many rows of n symbols there are: bytes that end alike are so far apart.
fn step_of(k: u8, n: usize) -> usize
    requires { (Width k) × (n ≤ per k) }
    ensures { (result ≡ 2 ^ (k * n)) × (256 / result * result ≡ 256) }
{
    1 << (usize::from(k) * n)
}

// 1 at the keys of all `many` bytes that end in `head`, the byte z being behind them.
fn mark(back: usize, z: u8, head: usize, step: usize, many: usize, t: &mut [u8; 8192])
    requires { (back ≤ 1) × (head < step) × (many * step ≡ 256) }
    ensures { Marks back z head step t.old t.new many }
{
    for i in 0..many {
        t[key(back, (i * step + head) as u8, z)] = 1;
    }
}

// The keys at free symbol i, whatever the free symbols are: n of the pattern's fill its byte.
fn mark_free(sought: &Sought, i: usize, t: &mut [u8; 8192])
    requires { let s = sought.now in (i < s.v.free) × Upto s.good.code.k s.v.back s.v.free s.v.places s.symbols.now t.old i }
    ensures { let s = sought.now in Upto s.good.code.k s.v.back s.v.free s.v.places s.symbols.now t.new (i + 1) }
{
    let k = sought.good.code.k;
    let v = sought.v;
    let per = per_byte(k);
    let n = per - v.free + i;
    let step = step_of(k, n);
    let z = if v.back == 1 {
        number_from(sought, n, per)
    } else {
        0
    };
    let head = usize::from(number_from(sought, 0, n));
    mark(v.back, z, head, step, 256 / step, t);
}

// The keys at all symbols: that of a later place is written over an earlier one.
fn fill_places(sought: &Sought, t: &mut [u8; 8192])
    requires { let s = sought.now in Upto s.good.code.k s.v.back s.v.free s.v.places s.symbols.now t.old s.v.free }
    ensures { Safe sought.now.good.code.k sought.now.v sought.now.symbols.now t.new }
{
    let Sought { good, symbols, v } = *sought;
    let k = good.code.k;
    let per = per_byte(k);
    let last = per - 1;
    let behind = v.back * per;
    let mut y = number_from(sought, 0, last);
    let mut z = number_from(sought, behind, last);
    for j in 0..v.places * per - v.free {
        y = next_byte(k, y, symbols[j + last]);
        z = next_byte(k, z, symbols[j + behind + last]);
        t[key(v.back, y, z)] = (byte_of(k, v.free + j) + 1) as u8;
    }
}

// The table of jumps: 0 for a key that stands nowhere in the pattern, else its last place in a window, and one.
pub fn fill_table(sought: &Sought, t: &mut [u8; 8192])
    requires { let s = sought.now in Upto s.good.code.k s.v.back s.v.free s.v.places s.symbols.now t.old 0 }
    ensures { Safe sought.now.good.code.k sought.now.v sought.now.symbols.now t.new }
{
    for i in 0..sought.v.free {
        mark_free(sought, i, t);
    }
    fill_places(sought, t);
}

// The last byte that each alignment has in a window. None in a window of one byte: free symbols may stand there.
pub fn lasts(sought: &Sought) -> Option<[u8; 4]>
    ensures { let s = sought.now in MatchOption result (s.v.wide ≡ 1) (λ last. (1 < s.v.wide) × Lasts s.good.code.k s.v s.symbols.now last (per s.good.code.k)) }
{
    let k = sought.good.code.k;
    let v = sought.v;
    if v.wide == 1 {
        return None;
    }
    let per = per_byte(k);
    let first = (v.wide - 1) * per - v.free;
    let mut last = [0; 4];
    for o in 0..per {
        last[o] = number_from(sought, first + o, per);
    }
    Some(last)
}
