// Codewords, symbol by symbol.
ghost use Rattle.std.specs.Prelude.{◌≡◌, ◌++◌, ◌≤◌, ◌<◌, length, drop};
ghost use Rattle.stopper.specs.Paper.Code.{spell};
ghost use Rattle.stopper.specs.Paper.Table.{base, stoppers, length_of, word_of};

use crate::code::{GoodCode, base_of, place_of, stoppers_at};

// The continuers of a codeword, the last first: i digits of x.
fn emit(good: GoodCode, x: u32, i: u32, out: &mut [u8])
    requires { i ≤ length out.old }
    ensures { out.new ≡ spell (base good.code) (stoppers good.code) i x (drop i out.old) }
{
    if 0 < i {
        let s = stoppers_at(good.code, i - 1);
        let c = base_of(good) - s;
        out[(i - 1) as usize] = (s + x % c) as u8;
        emit(good, x / c, i - 1, out);
    }
}

// The codeword of a rank, written from the start of out; its length.
pub fn spell_word(good: GoodCode, rank: u32, out: &mut [u8]) -> usize
    requires { (rank < 256) × (length_of good.code rank ≤ length out.old) }
    ensures length { result ≡ length_of good.code rank }
    ensures symbols { out.new ≡ word_of good.code rank ++ drop (length_of good.code rank) out.old }
{
    let p = place_of(good, rank);
    let i = p.at;
    let q = p.q;
    let s = stoppers_at(good.code, i);
    out[i as usize] = (q % s) as u8;
    emit(good, q / s, i, out);
    i as usize + 1
}
