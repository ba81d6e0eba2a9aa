// Editing a roll in place: any run of characters replaced by any text of the table that fits.
ghost use Rattle.std.specs.Prelude.{◌+◌, ◌≤◌, length};
ghost use Rattle.symbols.specs.Paper.Symbols.{room};
ghost use Rattle.sound.specs.Paper.Lengths.{Right};
ghost use Rattle.sound.specs.Paper.Roll.{Sound};
ghost use Rattle.store.specs.Helpers.Measured.{Spelled};
ghost use Rattle.store.specs.Helpers.Replacing.{Located};
ghost use Rattle.roll.specs.Paper.Operations.{Editing};
ghost use Rattle.roll.specs.Helpers.Refused.{DirectoryChecked, Changing};

use crate::check::check;
use ground::refusal::Refusal;
use sound::lookup::{first_wrong, start_of};
use sound::records::{Roll, SoundRoll};
use store::measure::{Misfit, measure};
use store::replace::{Run, first_over, replace};
use store::replacement::Replacement;
use store::words::Words;
use symbols::size::room_of;
use texts::entries::entries_for;

#[derive(Clone, Copy)]
pub struct Edited {
    pub answer: Result<(), Refusal>,
    pub roll: Roll,
}

// That a roll is sound and its directory right; refused as check does, or with 9.
fn check_directory(roll: Roll, buf: &[u8], dir: &[u32]) -> Result<(), Refusal>
    ensures { DirectoryChecked roll buf.now dir.now result }
{
    check(roll, buf)?;
    let sound = SoundRoll { roll, buf };
    if let Some(wrong) = first_wrong(&sound, dir) {
        return Err(Refusal::BadEntry(wrong as u64));
    }
    Ok(())
}

// A text that fits from the run's first symbol on takes the run's place, or is refused: 4 for what stands behind it, or 12.
fn put_in(roll: Roll, new: &Replacement, buf: &mut [u8], dir: &mut [u32]) -> Result<Roll, Refusal>
    requires { let n = new.now in Located roll buf.old dir.old n.run × Spelled roll.table n.words.now.lengths n.words.now.symbols n.text.now n.taken
        × (n.run.first + n.taken ≤ room roll.table.code.k (length buf.old)) }
    ensures { let n = new.now in Changing roll buf.old dir.old n.run.start n.run.end n.text.now result buf.new dir.new }
{
    let Replacement {
        text,
        taken,
        run,
        ..
    } = *new;
    let left = room_of(roll.table.code.k, buf.len()) - (run.first + taken);
    if left < roll.h as usize - run.last {
        let now: &[u8] = buf;
        let sound = SoundRoll { roll, buf: now };
        let over = first_over(&sound, run.end, run.last, left);
        let place = run.start + text.len() + (over - run.end);
        return Err(Refusal::NoRoom(place as u64));
    }
    let count = run.start + text.len() + (roll.n as usize - run.end);
    let needed = entries_for(count as u32);
    if dir.len() < needed {
        return Err(Refusal::ShortDirectory(needed as u64));
    }
    Ok(replace(roll, new, buf, dir))
}

// A run of a sound roll with a right directory is replaced, or refused 3, 4 or 12.
fn change(
    roll: Roll,
    buf: &mut [u8],
    dir: &mut [u32],
    start: usize,
    end: usize,
    text: &[u8],
) -> Result<Roll, Refusal>
    requires { Sound roll buf.old × Right roll buf.old dir.old × (start ≤ end) × (end ≤ roll.n) }
    ensures { Changing roll buf.old dir.old start end text.now result buf.new dir.new }
{
    let now: &[u8] = buf;
    let sound = SoundRoll { roll, buf: now };
    let first = start_of(&sound, dir, start);
    let last = start_of(&sound, dir, end);
    let space = room_of(roll.table.code.k, buf.len()) - first;
    let mut words = Words::new();
    match measure(roll.table, space, text, &mut words) {
        Err(Misfit::Foreign(place)) => Err(Refusal::NotInTable(place as u64)),
        Err(Misfit::Over(upto)) => Err(Refusal::NoRoom((start + upto) as u64)),
        Ok(taken) => {
            let run = Run {
                start,
                end,
                first,
                last,
            };
            let new = Replacement {
                words: &words,
                text,
                taken,
                run,
            };
            put_in(roll, &new, buf, dir)
        }
    }
}

// The record after an edit, or its refusal.
fn record_after(
    roll: Roll,
    buf: &mut [u8],
    dir: &mut [u32],
    start: usize,
    end: usize,
    text: &[u8],
) -> Result<Roll, Refusal>
    ensures { Changing roll buf.old dir.old start end text.now result buf.new dir.new }
{
    check_directory(roll, buf, dir)?;
    if end < start || (roll.n as usize) < end {
        return Err(Refusal::BadRange);
    }
    change(roll, buf, dir, start, end, text)
}

// A refused edit answers the record that came in.
pub fn edit(
    roll: Roll,
    buf: &mut [u8],
    dir: &mut [u32],
    start: usize,
    end: usize,
    text: &[u8],
) -> Edited
    ensures { Editing roll buf.old dir.old start end text.now result buf.new dir.new }
{
    match record_after(roll, buf, dir, start, end, text) {
        Ok(after) => Edited {
            answer: Ok(()),
            roll: after,
        },
        Err(refusal) => Edited {
            answer: Err(refusal),
            roll,
        },
    }
}
