// A pattern made ready to be matched.
ghost use Rattle.std.specs.Prelude.{◌≡◌, ◌≤◌, ◌<◌, T, length};
ghost use Rattle.texts.specs.Paper.Hits.{good_pattern, most_pattern};
ghost use Rattle.radio.specs.Paper.Matching.{whole_bit};
ghost use Rattle.radio.specs.Helpers.Masks.{masks_of};

// A pattern of 1 to 64 characters, for each character the places where it stands, and the bit of the whole pattern.
#[derive(Clone, Copy)]
pub struct Matcher<'a> {
    pub pattern: &'a [u8],
    pub masks: &'a [u64; 256],
    pub whole: u64,
    pub ghost some: { 0 < length pattern.now },
    pub ghost most: { length pattern.now ≤ most_pattern },
    pub ghost places: { masks.now ≡ masks_of pattern.now },
    pub ghost bit: { whole ≡ whole_bit pattern.now },
}

// The matcher that feed uses: its pattern is good, so byte 10 is not in it.
#[derive(Clone, Copy)]
pub struct GoodMatcher<'a> {
    pub matcher: Matcher<'a>,
    pub ghost good: { T (good_pattern matcher.pattern.now) },
}
