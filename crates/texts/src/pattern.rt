// Whether a pattern may be searched for.
ghost use Rattle.std.specs.Prelude.{◌≡◌};
ghost use Rattle.texts.specs.Paper.Hits.{good_pattern};

// A good pattern has no more characters.
pub const MOST_PATTERN: usize = 64;

pub fn good_pattern(pattern: &[u8]) -> bool
    ensures { result ≡ good_pattern pattern.now }
{
    (1..=MOST_PATTERN).contains(&pattern.len()) && !pattern.contains(&b'\n')
}
