// Searching a roll for a pattern, where it lies.
ghost use Rattle.roll.specs.Paper.Operations.{Searching};
ghost use Rattle.roll.specs.Helpers.Refused.{PatternChecked};

use crate::check::check;
use find::finding::search_sound;
use ground::refusal::Refusal;
use sound::records::{Roll, SoundRoll};
use texts::pattern::good_pattern;

// That a roll is sound and a pattern good, which both searches of a whole roll ask first; refused as check does, or with 11.
pub fn check_pattern(roll: Roll, buf: &[u8], pattern: &[u8]) -> Result<(), Refusal>
    ensures { PatternChecked roll buf.now pattern.now result }
{
    check(roll, buf)?;
    if !good_pattern(pattern) {
        return Err(Refusal::BadPattern);
    }
    Ok(())
}

pub fn search(roll: Roll, buf: &[u8], pattern: &[u8], slice: &mut [u32]) -> Result<u32, Refusal>
    ensures { Searching roll buf.now pattern.now slice.old result slice.new }
{
    check_pattern(roll, buf, pattern)?;
    let sound = SoundRoll { roll, buf };
    Ok(search_sound(&sound, pattern, slice))
}
