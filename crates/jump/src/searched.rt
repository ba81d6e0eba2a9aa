// What is searched: packed symbols.
ghost use Rattle.std.specs.Prelude.{◌≡◌, ℕ, ◌^◌, ◌≤◌, ◌<◌, length, get_or};
ghost use Rattle.symbols.specs.Paper.Symbols.{symbols_of};
ghost use Rattle.sound.specs.Helpers.Ends.{stops_by_byte};
ghost use Rattle.jump.specs.Helpers.Counting.{number_at};

use stopper::code::GoodCode;

// The first h symbols of a buffer, in which n codewords end; `stops` says how many end in each byte.
#[derive(Clone, Copy)]
pub struct Searched<'a> {
    pub good: GoodCode,
    pub stops: &'a [u8; 256],
    pub buf: &'a [u8],
    pub h: usize,
    pub n: u32,
    ghost known: { stops.now ≡ stops_by_byte good.code },
    ghost bytes: { (i : ℕ) → get_or buf.now i 0 < 256 },
    ghost inside: { h ≤ length (symbols_of good.code.k buf.now) },
    ghost few: { h ≤ 2 ^ 24 },
    ghost number: { n ≡ number_at good.code buf.now h },
}
