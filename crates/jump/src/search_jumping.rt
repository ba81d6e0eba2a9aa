// Searching a roll for a pattern by jumps: what `roll::search::search` answers and writes. The engine alone is another, so nothing is shared but
// `check_pattern`.
ghost use Rattle.roll.specs.Paper.Operations.{Searching};

use crate::jumping::jump_sound;
use ground::refusal::Refusal;
use roll::search::check_pattern;
use sound::records::{Roll, SoundRoll};

pub fn search_jumping(
    roll: Roll,
    buf: &[u8],
    pattern: &[u8],
    slice: &mut [u32],
) -> Result<u32, Refusal>
    ensures { Searching roll buf.now pattern.now slice.old result slice.new }
{
    check_pattern(roll, buf, pattern)?;
    let sound = SoundRoll { roll, buf };
    Ok(jump_sound(&sound, pattern, slice))
}
