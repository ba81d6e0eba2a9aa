// Unpacking a range of characters.
ghost use Rattle.roll.specs.Paper.Operations.{Unpacking};

use crate::check::check;
use ground::refusal::Refusal;
use sound::range::unpack_sound;
use sound::records::{Roll, SoundRoll};

pub fn unpack(
    roll: Roll,
    buf: &[u8],
    start: usize,
    end: usize,
    out: &mut [u8],
) -> Result<(), Refusal>
    ensures { Unpacking roll buf.now start end out.old result out.new }
{
    check(roll, buf)?;
    if end < start || (roll.n as usize) < end {
        return Err(Refusal::BadRange);
    }
    if out.len() < end - start {
        return Err(Refusal::ShortOutput((end - start) as u64));
    }
    let sound = SoundRoll { roll, buf };
    unpack_sound(&sound, start, end, out);
    Ok(())
}
