// What characters the symbols of a byte give (specs/Helpers/Gives).
ghost use Rattle.std.specs.Prelude.{◌≡◌, List, ◌∷◌, [], ℕ, ◌≤◌, ◌<◌, length, IfSome};
ghost use Rattle.stopper.specs.Paper.Table.{stoppers};
ghost use Rattle.symbols.specs.Paper.Symbols.{symbols_of};
ghost use Rattle.unpacking.specs.Helpers.Gives.{Says, KnownByByte, first_times, first_plus, later_in};

use moves::byte::moves_by_byte;
use stopper::code::{GoodCode, Ranks, base_of, stoppers_at};
use symbols::bits::per_byte;
use symbols::symbol::get;

// The rank of the first codeword that ends in a byte is the state so many times, plus so much; then the characters of the others, as far as there are some.
#[derive(Clone, Copy)]
pub struct Gives {
    pub times: u8,
    pub plus: u8,
    pub second: u8,
    pub third: u8,
    pub fourth: u8,
}

// The moves of all byte values, each in one number, and what they give, each in another. Two tables: so the loop that reads both finds each entry by its index alone.
#[derive(Clone, Copy)]
pub struct AllKnown {
    pub go: [u32; 256],
    pub gives: [u64; 256],
}

// A stopper before what g says.
fn stop_gives(good: GoodCode, places: &[u8; 256], y: u8, g: Gives) -> Gives
    requires { y < stoppers good.code 0 }
    ensures { (w : List ℕ) → length w ≤ 3 → Says good.code places.now w g → Says good.code places.now (y ∷ w) result }
{
    let times = stoppers_at(good.code, 0) as u8;
    Gives {
        times,
        plus: y,
        second: places[usize::from(g.plus)],
        third: g.second,
        fourth: g.third,
    }
}

// A continuer before what g says: it is not known where its numbers are too great for bytes.
fn more_gives(good: GoodCode, y: u8, g: Gives) -> Option<Gives>
    requires { (stoppers good.code 0 ≤ y) × (y < 16) }
    ensures { (places w : List ℕ) → Says good.code places w g → IfSome result (Says good.code places (y ∷ w)) }
{
    let s = stoppers_at(good.code, 0);
    let c = base_of(good) - s;
    let d = u32::from(y) - s + 1;
    let times = u8::try_from(c * u32::from(g.times)).ok()?;
    let plus = u8::try_from(d * u32::from(g.times) + u32::from(g.plus)).ok()?;
    Some(Gives { times, plus, ..g })
}

// A symbol before what g says.
fn gives_before(good: GoodCode, places: &[u8; 256], y: u8, g: Gives) -> Option<Gives>
    requires { y < 16 }
    ensures { (w : List ℕ) → length w ≤ 3 → Says good.code places.now w g → IfSome result (Says good.code places.now (y ∷ w)) }
{
    if u32::from(y) < stoppers_at(good.code, 0) {
        Some(stop_gives(good, places, y, g))
    } else {
        more_gives(good, y, g)
    }
}

// What byte b gives, from its last symbol to the first.
fn gives_of(good: GoodCode, places: &[u8; 256], b: u8) -> Option<Gives>
    ensures { IfSome result (Says good.code places.now (symbols_of good.code.k (b ∷ []))) }
{
    let mut g = Gives {
        times: 0,
        plus: 0,
        second: 0,
        third: 0,
        fourth: 0,
    };
    let k = good.code.k;
    for t in (0..per_byte(k)).rev() {
        g = gives_before(good, places, get(k, &[b], t), g)?;
    }
    Some(g)
}

// In one number.
fn gives_in_one(g: Gives) -> u64
    ensures { (first_times result ≡ g.times) × (first_plus result ≡ g.plus) × (later_in result ≡ g.second ∷ g.third ∷ g.fourth ∷ []) }
{
    u64::from_le_bytes([g.times, g.plus, g.second, g.third, g.fourth, 0, 0, 0])
}

// Those of all byte values. Where it is not known what a byte gives, its move is 0: of no state.
pub fn known_by_byte(ranks: Ranks, places: &[u8; 256]) -> AllKnown
    ensures { KnownByByte ranks.good.code ranks.sigma places.now result.go result.gives }
{
    let mut go = [0u32; 256];
    let mut gives = [0u64; 256];
    for (b, e) in moves_by_byte(ranks).iter().enumerate() {
        if let Some(g) = gives_of(ranks.good, places, b as u8) {
            go[b] = *e;
            gives[b] = gives_in_one(g);
        }
    }
    AllKnown { go, gives }
}
