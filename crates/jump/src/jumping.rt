// Searching a sound roll by jumps, where the pattern has symbols for a window.
ghost use Rattle.std.specs.Prelude.{◌≡◌, ◌^◌, ◌≤◌, T, length};
ghost use Rattle.ground.specs.Helpers.Below.{Below};
ghost use Rattle.symbols.specs.Paper.Symbols.{per};
ghost use Rattle.texts.specs.Paper.Hits.{hits, good_pattern, listed};
ghost use Rattle.sound.specs.Paper.Roll.{text_of};
ghost use Rattle.jump.specs.Helpers.Hits.{hits_below};

use crate::scanning::{Windows, scan};
use crate::searched::Searched;
use crate::windows::{Sought, fill_table, lasts, window_of};
use find::finding::{list_hits, spell_pattern};
use sound::ends::stops_by_byte;
use sound::records::SoundRoll;
use stopper::code::{GoodCode, LONGEST, Ranks};
use stopper::table::Alphabet;
use symbols::bits::per_byte;
use texts::pattern::MOST_PATTERN;

// The symbols of a pattern looked for in windows.
fn jump(searched: &Searched, symbols: &[u8], slice: &mut [u32]) -> u32
    requires { (per searched.now.good.code.k ≤ length symbols.now) × Below (2 ^ searched.now.good.code.k) symbols.now }
    ensures total { let s = searched.now in result ≡ length (hits_below s.good.code s.h s.buf.now symbols.now s.h) }
    ensures list { let s = searched.now in slice.new ≡ listed (hits_below s.good.code s.h s.buf.now symbols.now s.h) slice.old }
{
    let good = searched.good;
    let sought = Sought {
        good,
        symbols,
        v: window_of(good.code.k, symbols.len()),
    };
    let mut t = [0; 8192];
    fill_table(&sought, &mut t);
    let windows = Windows {
        searched: *searched,
        sought,
        t: &t,
        last: lasts(&sought),
    };
    scan(&windows, slice)
}

// Searching a sound roll: the total of all hits; the first of them are listed as far as the slice goes. Too few symbols for a window are looked for one by one.
pub fn jump_sound(sound: &SoundRoll, pattern: &[u8], slice: &mut [u32]) -> u32
    requires { T (good_pattern pattern.now) }
    ensures total { result ≡ length (hits pattern.now (text_of sound.now.roll sound.now.buf.now)) }
    ensures list { slice.new ≡ listed (hits pattern.now (text_of sound.now.roll sound.now.buf.now)) slice.old }
{
    let roll = &sound.roll;
    let table = &roll.table;
    let good = GoodCode { code: table.code };
    let alphabet = Alphabet {
        ranks: Ranks {
            good,
            sigma: table.sigma as u32,
        },
        places: &table.places,
    };
    let mut row = [0; MOST_PATTERN * LONGEST];
    let Some(long) = spell_pattern(&alphabet, pattern, &mut row) else {
        return 0;
    };
    let symbols = &row[..long];
    if long < per_byte(table.code.k) {
        return list_hits(sound, symbols, slice);
    }
    let stops = stops_by_byte(good);
    let searched = Searched {
        good,
        stops: &stops,
        buf: sound.buf,
        h: roll.h as usize,
        n: roll.n,
    };
    jump(&searched, symbols, slice)
}
