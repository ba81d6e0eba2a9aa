// Where symbol i of k bits stands, and a symbol cut out of a byte or laid into it.
ghost use Rattle.std.specs.Prelude.{◌≡◌, ◌+◌, ◌/◌, ◌%◌, ◌^◌, ◌≤◌, ◌<◌};
ghost use Rattle.symbols.specs.Paper.Symbols.{per, shift};
ghost use Rattle.symbols.specs.Helpers.Widths.{Width};
ghost use Rattle.symbols.specs.Helpers.Bits.{cut_out, laid_in, joined};

// Symbols in a byte: 4 or 2.
pub fn per_byte(k: u8) -> usize
    requires { Width k }
    ensures { result ≡ per k }
{
    8 >> (k / 2)
}

// The byte of symbol i.
pub fn byte_of(k: u8, i: usize) -> usize
    requires { Width k }
    ensures { result ≡ i / per k }
{
    i >> (3 - k / 2)
}

// The place of symbol i among the symbols of its byte.
pub fn place_in_byte(k: u8, i: usize) -> usize
    requires { Width k }
    ensures { result ≡ i % per k }
{
    i & (per_byte(k) - 1)
}

// The bits below symbol i in its byte.
pub fn shift_of(k: u8, i: usize) -> u8
    requires { Width k }
    ensures { result ≡ shift k (i % per k) }
{
    8 - k - k * (place_in_byte(k, i) as u8)
}

pub fn cut_out(b: u8, k: u8, low: u8) -> u8
    requires { (k < 8) × (low < 8) }
    ensures { result ≡ cut_out k low b }
{
    (b >> low) & ((1 << k) - 1)
}

pub fn laid_in(b: u8, k: u8, low: u8, y: u8) -> u8
    requires { (k < 8) × (low < 8) × (low + k ≤ 8) × (y < 2 ^ k) }
    ensures { result ≡ laid_in k low y b }
{
    let mask = ((1u8 << k) - 1) << low;
    (b & !mask) | (y << low)
}

pub fn join(first: u8, second: u8, skip: u8) -> u8
    requires { (0 < skip) × (skip < 8) }
    ensures { result ≡ joined skip first second }
{
    (first << skip) | (second >> (8 - skip))
}
