// Making a directory.
ghost use Rattle.roll.specs.Paper.Operations.{Making};

use crate::check::check;
use ground::refusal::Refusal;
use sound::records::{Roll, SoundRoll};
use store::mending::make_sound;
use texts::entries::entries_for;

pub fn make_directory(roll: Roll, buf: &[u8], dir: &mut [u32]) -> Result<(), Refusal>
    ensures { Making roll buf.now dir.old result dir.new }
{
    check(roll, buf)?;
    let needed = entries_for(roll.n);
    if dir.len() < needed {
        return Err(Refusal::ShortDirectory(needed as u64));
    }
    let sound = SoundRoll { roll, buf };
    make_sound(&sound, dir);
    Ok(())
}
