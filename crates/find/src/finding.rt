// The places of a sound roll where a pattern stands.
ghost use Rattle.std.specs.Prelude.{◌≡◌, ◌*◌, ◌≤◌, ◌<◌, T, [], length, take, drop, IfSome, MatchOption};
ghost use Rattle.stopper.specs.Paper.Table.{longest};
ghost use Rattle.stopper.specs.Helpers.Alphabets.{characters_in};
ghost use Rattle.symbols.specs.Paper.Symbols.{symbols_of};
ghost use Rattle.symbols.specs.Helpers.Widths.{Width};
ghost use Rattle.texts.specs.Paper.Characters.{first_foreign};
ghost use Rattle.texts.specs.Paper.Hits.{hits, good_pattern, listed, most_pattern, stands};
ghost use Rattle.reading.specs.Paper.Reading.{row_upto};
ghost use Rattle.sound.specs.Paper.Roll.{text_of};
ghost use Rattle.find.specs.Helpers.Finding.{pattern_row, word_hits};

use sound::ends::end_at;
use sound::records::SoundRoll;
use stopper::code::{GoodCode, LONGEST, Ranks};
use stopper::table::{Alphabet, ranks_of};
use stopper::word::spell_word;
use symbols::symbol::get;
use texts::pattern::MOST_PATTERN;

// The symbols of a pattern, one a byte, from the front of symbols: how many. None if a character is not in the table.
pub fn spell_pattern(alphabet: &Alphabet, pattern: &[u8], symbols: &mut [u8]) -> Option<usize>
    requires { (length pattern.now ≤ most_pattern) × (length symbols.old ≡ most_pattern * longest) }
    ensures known { let row = characters_in alphabet.now in MatchOption result (first_foreign row pattern.now < length pattern.now) (λ long. first_foreign row pattern.now ≡ length pattern.now) }
    ensures length { let found = pattern_row alphabet.now.ranks.good.code (characters_in alphabet.now) pattern.now in MatchOption result (found ≡ []) (λ long. long ≡ length found) }
    ensures symbols { IfSome result (λ long. take long symbols.new ≡ pattern_row alphabet.now.ranks.good.code (characters_in alphabet.now) pattern.now) }
{
    let Ranks { good, sigma, .. } = alphabet.ranks;
    let ranks = ranks_of(sigma as u16, *alphabet.places);
    let mut p: usize = 0;
    for b in pattern {
        let rank = u32::from(ranks[usize::from(*b)]);
        if sigma <= rank {
            return None;
        }
        p += spell_word(good, rank, &mut symbols[p..p + LONGEST]);
    }
    Some(p)
}

// From codeword to codeword: the total of those at whose start the symbols stand; the first of them are listed as far as the slice goes.
pub fn list_hits(sound: &SoundRoll, symbols: &[u8], slice: &mut [u32]) -> u32
    ensures total { result ≡ length (word_hits sound.now.roll sound.now.buf.now symbols.now) }
    ensures list { slice.new ≡ listed (word_hits sound.now.roll sound.now.buf.now symbols.now) slice.old }
{
    let SoundRoll { roll, buf, .. } = *sound;
    let code = roll.table.code;
    let h = roll.h as usize;
    let mut total: u32 = 0;
    let mut p: usize = 0;
    for i in 0..roll.n {
        let same = 'symbols: {
            for (j, symbol) in symbols.iter().enumerate() {
                if p + j == h || get(code.k, buf, p + j) != *symbol {
                    break 'symbols false;
                }
            }
            true
        };
        if same {
            if (total as usize) < slice.len() {
                slice[total as usize] = i;
            }
            total += 1;
        }
        p = end_at(code, buf, p);
    }
    total
}

// Searching a sound roll: the total of all hits; the first of them are listed as far as the slice goes.
pub fn search_sound(sound: &SoundRoll, pattern: &[u8], slice: &mut [u32]) -> u32
    requires { T (good_pattern pattern.now) }
    ensures total { result ≡ length (hits pattern.now (text_of sound.now.roll sound.now.buf.now)) }
    ensures list { slice.new ≡ listed (hits pattern.now (text_of sound.now.roll sound.now.buf.now)) slice.old }
{
    let table = &sound.roll.table;
    let alphabet = Alphabet {
        ranks: Ranks {
            good: GoodCode { code: table.code },
            sigma: table.sigma as u32,
        },
        places: &table.places,
    };
    let mut symbols = [0u8; MOST_PATTERN * LONGEST];
    let Some(long) = spell_pattern(&alphabet, pattern, &mut symbols) else {
        return 0;
    };
    list_hits(sound, &symbols[..long], slice)
}
