// Which beginnings of a pattern end at a character, one bit for each.
ghost use Rattle.std.specs.Prelude.{◌≡◌, ◌+◌, ◌*◌, ◌^◌, ◌≤◌, ◌<◌, length, take};
ghost use Rattle.std.specs.Int.Bits.{bit_and};
ghost use Rattle.ground.specs.Paper.Rows.{padded, zeros};
ghost use Rattle.texts.specs.Paper.Hits.{most_pattern};
ghost use Rattle.radio.specs.Helpers.Masks.{masks_of};
ghost use Rattle.radio.specs.Helpers.Naming.{Names, NamedIn};

use crate::matcher::Matcher;
use texts::pattern::MOST_PATTERN;

// The beginnings that end at the last character, and so many hits in all.
#[derive(Clone, Copy)]
pub struct Named {
    pub ends: u64,
    pub hits: usize,
}

// For each character the places of the pattern where it stands: bit j of entry b is 1 where character j is b. The entries are lent, all 0.
pub fn mark_places(pattern: &[u8], masks: &mut [u64])
    requires { (length pattern.now ≤ most_pattern) × (masks.old ≡ zeros 256) }
    ensures { masks.new ≡ masks_of pattern.now }
{
    for (j, &b) in pattern.iter().enumerate() {
        masks[usize::from(b)] += 1 << j;
    }
}

// The beginnings that end one character later, where it stands at these places of the pattern.
pub fn advance(ends: u64, mask: u64) -> u64
    requires { ends < 2 ^ 63 }
    ensures { result ≡ bit_and (2 * ends + 1) mask }
{
    (2 * ends + 1) & mask
}

// The hits whose last character is in a text, `count` characters being before it; they are listed behind those named `before`.
pub fn name_hits(
    matcher: &Matcher,
    text: &[u8],
    count: u32,
    before: Named,
    slice: &mut [u32],
) -> Named
    requires { Names matcher.now.whole text.now count before slice.old }
    ensures { NamedIn matcher.now.pattern.now text.now count before.ends slice.old before.hits result slice.new }
{
    let Matcher {
        pattern,
        masks,
        whole,
    } = *matcher;
    let length = pattern.len() as u32;
    let mut on = before.ends;
    let mut at = before.hits;
    for (i, &b) in text.iter().enumerate() {
        on = advance(on, masks[usize::from(b)]);
        if whole <= on {
            on -= whole;
            slice[at] = count + (i as u32 + 1) - length;
            at += 1;
        }
    }
    Named { ends: on, hits: at }
}

// A pattern in its places, 0 past its end.
pub fn kept_pattern(pattern: &[u8]) -> [u8; MOST_PATTERN]
    requires { length pattern.now ≤ most_pattern }
    ensures { result ≡ padded most_pattern pattern.now }
{
    let mut places = [0u8; MOST_PATTERN];
    places[..pattern.len()].copy_from_slice(pattern);
    places
}
