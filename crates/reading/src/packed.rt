// What is read: packed symbols.
ghost use Rattle.std.specs.Prelude.{◌≤◌, length};
ghost use Rattle.ground.specs.Helpers.Bound.{limit_bound};
ghost use Rattle.symbols.specs.Paper.Symbols.{symbols_of};

use stopper::code::Ranks;

// The first h symbols of a buffer that holds so many, read as codewords of the ranks (the limit is at most 2 ^ 24, so h is).
#[derive(Clone, Copy)]
pub struct Packed<'a> {
    pub ranks: Ranks,
    pub buf: &'a [u8],
    pub h: usize,
    pub ghost held: { h ≤ length (symbols_of ranks.good.code.k buf.now) },
    pub ghost small: { h ≤ limit_bound },
}
