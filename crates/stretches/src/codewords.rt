// Whole codewords of a piece at once: what a symbol does is looked up, so that no branch waits for the text.
//
// With s stoppers and c continuers at every place, one number x stands for the continuers of the open codeword: 0 for none, and a
// continuer y makes x * c + (y - s + 1) of it. A stopper y behind them ends rank x * s + y.
ghost use Rattle.std.specs.Prelude.{◌≡◌, ◌+◌, ◌≤◌, ◌<◌, T, length, IfSome};
ghost use Rattle.stopper.specs.Helpers.State.{opened};
ghost use Rattle.symbols.specs.Paper.Symbols.{per, symbols_of};
ghost use Rattle.symbols.specs.Helpers.Widths.{Width};
ghost use Rattle.stretches.specs.Helpers.Codewords.{role_of, RolesOf, ByteLaid, LaidOut, Passes, PassedAll, PassedSome, Reads, ReadStretch};

use stopper::code::{base_of, stoppers_at};
use stopper::reading::{Reader, Step, opening, read_symbol};
use stopper::table::Alphabet;
use symbols::bits::{byte_of, cut_out, per_byte, place_in_byte, shift_of};
use symbols::symbol::get;

// So many symbols are passed at once, at most.
pub const AT_ONCE: usize = 256;

// What a symbol does: what x is taken times, and what is added; what is added for the rank; and 1 if it is a stopper.
#[derive(Clone, Copy)]
struct Role {
    times: u32,
    plus: u32,
    low: u32,
    stops: u32,
}

// Good codewords passed, up to symbol `to` where the last of them ends, and how many.
#[derive(Clone, Copy)]
struct Passed {
    to: usize,
    characters: usize,
}

// A stretch of symbols read up to symbol `to`: the reading state there, whether a codeword ends with its last symbol, and how many ended.
#[derive(Clone, Copy)]
pub struct Stretch {
    pub to: usize,
    pub reader: Reader,
    pub ended: bool,
    pub characters: usize,
}

fn role_of(y: u32, s: u32, c: u32) -> Role
    requires { y < 16 }
    ensures { result ≡ role_of s c y }
{
    if y < s {
        Role {
            times: 0,
            plus: 0,
            low: y,
            stops: 1,
        }
    } else {
        Role {
            times: c,
            plus: y - s + 1,
            low: 0,
            stops: 0,
        }
    }
}

// All symbols' roles.
fn roles_of(s: u32, c: u32) -> [Role; 16]
    ensures { RolesOf s c result }
{
    let none = Role {
        times: 0,
        plus: 0,
        low: 0,
        stops: 0,
    };
    let mut roles = [none; 16];
    for y in 0..16 {
        roles[y as usize] = role_of(y, s, c);
    }
    roles
}

// The symbols of a byte, one a place from place `at` on.
fn lay_byte(k: u8, b: u8, row: &mut [u8; AT_ONCE], at: usize)
    requires { (Width k) × (at + per k ≤ 256) }
    ensures { ByteLaid k b at row.old row.new }
{
    for t in 0..per_byte(k) {
        row[at + t] = cut_out(b, k, shift_of(k, t));
    }
}

// The symbols of the bytes from byte `first` on, as many as the row takes; so many are laid out.
fn lay_bytes(k: u8, piece: &[u8], first: usize, row: &mut [u8; AT_ONCE]) -> usize
    requires { (Width k) × (first ≤ length piece.now) }
    ensures { LaidOut k piece.now first result row.new }
{
    let per = per_byte(k);
    let n = (piece.len() - first).min(AT_ONCE / per);
    for j in 0..n {
        lay_byte(k, piece[first + j], row, j * per);
    }
    n * per
}

// A call for each width: the compiler then knows it before the loop.
fn lay_out(k: u8, piece: &[u8], first: usize, row: &mut [u8; AT_ONCE]) -> usize
    requires { (Width k) × (first ≤ length piece.now) }
    ensures { LaidOut k piece.now first result row.new }
{
    if k == 2 {
        lay_bytes(2, piece, first, row)
    } else {
        lay_bytes(4, piece, first, row)
    }
}

// The last place of a row behind `from`, up to `to`, where a stopper lies just before.
fn last_end(s: u32, row: &[u8; AT_ONCE], from: usize, to: usize) -> Option<usize>
    requires { to ≤ 256 }
    ensures { IfSome result (λ end. (from < end) × (end ≤ to)) }
{
    for i in (from..to).rev() {
        if u32::from(row[i]) < s {
            return Some(i + 1);
        }
    }
    None
}

// The symbols of a row from `from` to `to`, the characters of their codewords to the text: how many. Or the place before which less can be tried.
fn pass_all(
    alphabet: &Alphabet,
    row: &[u8; AT_ONCE],
    from: usize,
    to: usize,
    text: &mut [u8],
) -> Result<usize, usize>
    requires { Passes row.now from to text.old }
    ensures { let a = alphabet.now in PassedAll a.ranks.good.code a.ranks.sigma a.places.now row.now from to result text.new }
{
    let Alphabet { ranks, places } = *alphabet;
    let s = stoppers_at(ranks.good.code, 0);
    let c = base_of(ranks.good) - s;
    let roles = roles_of(s, c);
    let mut x: u32 = 0;
    let mut n: usize = 0;
    for i in from..to {
        let role = roles[usize::from(row[i])];
        let rank = x * s + role.low;
        if ranks.sigma <= rank {
            return Err(i);
        }
        x = x * role.times + role.plus;
        // Put down with every symbol; the next one takes the same place unless this one is a stopper.
        text[n] = places[rank as usize];
        n += role.stops as usize;
    }
    // Never where the last symbol is a stopper; that it is one, nobody promised.
    if x != 0 {
        return Err(from);
    }
    Ok(n)
}

// Whether a codeword begins with the next symbol. (Where it says no, symbols are read one by one.)
fn begins(r: Reader) -> bool
    ensures { T result → r ≡ opened }
{
    r == opening()
}

// Where a codeword begins with symbol `from`: as many as end by symbol `upto`, within so many symbols as are passed at once.
fn pass(
    alphabet: &Alphabet,
    r: Reader,
    piece: &[u8],
    from: usize,
    upto: usize,
    text: &mut [u8],
) -> Option<Passed>
    requires { (from ≤ upto) × (upto ≤ length (symbols_of alphabet.now.ranks.good.code.k piece.now)) × (length text.old ≡ 256) }
    ensures { let a = alphabet.now in PassedSome a.ranks.good.code a.ranks.sigma a.places.now r piece.now from upto result text.new }
{
    if !begins(r) {
        return None;
    }
    let code = alphabet.ranks.good.code;
    let skip = place_in_byte(code.k, from);
    let mut row = [0u8; AT_ONCE];
    let laid = lay_out(code.k, piece, byte_of(code.k, from), &mut row);
    let s = stoppers_at(code, 0);
    let mut far = (upto - from + skip).min(laid);
    // A while: how far back it goes comes from the symbols. A second turn only where a codeword is bad: those before it.
    while let Some(to) = last_end(s, &row, skip, far) {
        match pass_all(alphabet, &row, skip, to, text) {
            Ok(characters) => {
                return Some(Passed {
                    to: from - skip + to,
                    characters,
                });
            }
            Err(before) => far = before,
        }
    }
    None
}

// Whole codewords at once; or one symbol, of a codeword that began in an earlier piece, goes on into the next or is bad. The characters go to the text.
// None where no codeword ends well from here on.
pub fn read_stretch(
    alphabet: &Alphabet,
    r: Reader,
    piece: &[u8],
    at: usize,
    upto: usize,
    text: &mut [u8],
) -> Option<Stretch>
    requires { Reads alphabet.now.ranks.good.code.k r piece.now at upto text.old }
    ensures { let a = alphabet.now in ReadStretch a.ranks.good.code a.ranks.sigma a.places.now r piece.now at upto result text.new }
{
    if let Some(passed) = pass(alphabet, r, piece, at, upto, text) {
        return Some(Stretch {
            to: passed.to,
            reader: opening(),
            ended: true,
            characters: passed.characters,
        });
    }
    let ranks = alphabet.ranks;
    match read_symbol(ranks, r, get(ranks.good.code.k, piece, at)) {
        Step::Rank(rank) => {
            text[0] = alphabet.places[rank as usize];
            Some(Stretch {
                to: at + 1,
                reader: opening(),
                ended: true,
                characters: 1,
            })
        }
        Step::Bad => None,
        Step::Open(on) if on.past => None,
        Step::Open(on) => Some(Stretch {
            to: at + 1,
            reader: on,
            ended: false,
            characters: 0,
        }),
    }
}
