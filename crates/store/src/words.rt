// The codewords of a table, worked out once for a call, and texts written by them.
ghost use Rattle.std.specs.Prelude.{◌≡◌, ◌*◌, ◌+◌, ◌≤◌, ◌<◌, IfSome, MatchOption, T, length, take, drop};
ghost use Rattle.ground.specs.Paper.Rows.{zeros, first_where};
ghost use Rattle.ground.specs.Helpers.Moved.{laid_from};
ghost use Rattle.stopper.specs.Paper.Table.{longest};
ghost use Rattle.stopper.specs.Helpers.Alphabets.{characters_in};
ghost use Rattle.symbols.specs.Paper.Symbols.{symbols_of};
ghost use Rattle.symbols.specs.Helpers.Gathered.{Waiting, Added};
ghost use Rattle.store.specs.Helpers.Words.{Spelt, goes_on, fit_of, absent, next_foreign, word_at, WordsLaid, Numbers, Laid, row_of};

use stopper::code::{LONGEST, Ranks};
use stopper::table::Alphabet;
use stopper::word::spell_word;
use symbols::gather::{Gather, add, add_each, begin, finish, join_all};

// For each character the length of its codeword, and its symbols in 86 places of their own. A length of 0 says that the character is not in the table.
// It is large, so it is lent and not handed over.
#[derive(Clone, Copy)]
pub struct Words {
    pub lengths: [u8; 256],
    pub symbols: [u8; 256 * LONGEST],
}

impl Words {
    // None yet.
    pub fn new() -> Words
        ensures { result.lengths ≡ zeros 256 }
    {
        Words {
            lengths: [0; 256],
            symbols: [0; 256 * LONGEST],
        }
    }
}

// From the last character to the first.
pub fn spell_all(alphabet: &Alphabet, words: &mut Words)
    requires { words.old.lengths ≡ zeros 256 }
    ensures { let a = alphabet.now in Spelt a.ranks.good.code (characters_in a) words.new.lengths words.new.symbols }
{
    let Ranks { good, sigma, .. } = alphabet.ranks;
    for i in (0..sigma).rev() {
        let b = usize::from(alphabet.places[i as usize]);
        let at = b * LONGEST;
        let long = spell_word(good, i, &mut words.symbols[at..at + LONGEST]);
        words.lengths[b] = long as u8;
    }
}

// How many characters from the first on are in the table and fit, and the symbols that they take.
#[derive(Clone, Copy)]
pub struct Fit {
    pub upto: usize,
    pub taken: usize,
}

fn goes_on(long: usize, left: usize) -> bool
    ensures { result ≡ goes_on long left }
{
    0 < long && long <= left
}

pub fn fitting(words: &Words, room: usize, text: &[u8]) -> Fit
    ensures { result ≡ fit_of words.now.lengths room text.now }
{
    let mut taken: usize = 0;
    for (i, b) in text.iter().enumerate() {
        let long = usize::from(words.lengths[usize::from(*b)]);
        if !goes_on(long, room - taken) {
            return Fit { upto: i, taken };
        }
        taken += long;
    }
    Fit {
        upto: text.len(),
        taken,
    }
}

// The place of the first character from a place on that is not in the table.
pub fn first_foreign(words: &Words, text: &[u8], from: usize) -> Option<usize>
    requires { from ≤ length text.now }
    ensures { MatchOption result (next_foreign words.now.lengths text.now from ≡ length text.now) (λ i. (i ≡ next_foreign words.now.lengths text.now from) × (i < length text.now)) }
{
    let i = text[from..]
        .iter()
        .position(|b| words.lengths[usize::from(*b)] == 0)?;
    Some(from + i)
}

// A codeword of fewer symbols may wait as one number.
const JOINED: usize = 9;

// The numbers of all characters are made for a text of at least as many.
const MANY: usize = 256;

// The codewords of fewer than JOINED symbols as numbers, by character.
fn numbers_of(k: u8, words: &Words) -> [u32; 256]
    requires { WordsLaid k words.now.lengths words.now.symbols }
    ensures { Numbers k words.now.lengths words.now.symbols result }
{
    let mut numbers = [0u32; 256];
    for (b, number) in numbers.iter_mut().enumerate() {
        let long = usize::from(words.lengths[b]);
        if long < JOINED {
            let at = b * LONGEST;
            *number = join_all(k, &words.symbols[at..at + long]);
        }
    }
    numbers
}

// The codeword of a character behind those before it: as its number if there is one, else symbol by symbol.
fn add_word(
    k: u8,
    words: &Words,
    numbers: Option<&[u32; 256]>,
    b: u8,
    g: Gather,
    buf: &mut [u8],
) -> Gather
    requires { WordsLaid k words.now.lengths words.now.symbols × IfSome numbers (λ n. Numbers k words.now.lengths words.now.symbols n.now) × Waiting k g buf.old (length (word_at words.now.lengths words.now.symbols b)) }
    ensures { Added k g buf.old (word_at words.now.lengths words.now.symbols b) result buf.new }
{
    let b = usize::from(b);
    let long = usize::from(words.lengths[b]);
    match numbers {
        Some(numbers) if long < JOINED => add(k, g, buf, numbers[b], long),
        _ => {
            let at = b * LONGEST;
            add_each(k, g, buf, &words.symbols[at..at + long])
        }
    }
}

fn write_words(
    k: u8,
    words: &Words,
    numbers: Option<&[u32; 256]>,
    text: &[u8],
    buf: &mut [u8],
    first: usize,
)
    requires { Laid k words.now.lengths words.now.symbols text.now buf.old first × IfSome numbers (λ n. Numbers k words.now.lengths words.now.symbols n.now) }
    ensures { symbols_of k buf.new ≡ laid_from (symbols_of k buf.old) first (row_of words.now.lengths words.now.symbols text.now) }
{
    let mut g = begin(k, buf, first);
    for b in text {
        g = add_word(k, words, numbers, *b, g, buf);
    }
    finish(k, g, buf);
}

// The codewords of a text stored from symbol first on; no numbers are made for a short one.
// Not inlined: the numbers would stand in the caller's frame.
#[inline(never)]
pub fn write_text(k: u8, words: &Words, text: &[u8], buf: &mut [u8], first: usize)
    requires { Laid k words.now.lengths words.now.symbols text.now buf.old first }
    ensures { symbols_of k buf.new ≡ laid_from (symbols_of k buf.old) first (row_of words.now.lengths words.now.symbols text.now) }
{
    if text.len() < MANY {
        write_words(k, words, None, text, buf, first);
        return;
    }
    let numbers = numbers_of(k, words);
    write_words(k, words, Some(&numbers), text, buf, first);
}
